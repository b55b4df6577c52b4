//! The top call over a folder and a sink that never fail.
ghost use Rattle.std.specs.Prelude.{◌≡◌, ◌⊎◌, List, ℕ, Some, None, map, string_bytes};
ghost use Rattle.sources.specs.Files.{WritesText};
ghost use Rattle.edge.specs.InMemory.{bytes_or_none};
ghost use Rattle.commands.specs.Answers.{IsExactStatus, Belongs};
ghost use Rattle.commands.specs.Files.{IsAskedRow};
ghost use Rattle.commands.specs.Rows.{Row, IsNoRow};

use crate::program::run;
use edge::{NeverFailsFolder, NeverFailsSink};
use std::alloc::Global;

/// Does what the words say, as `crate::run` does: over files that can be read at each call, and a sink that takes all bytes and
/// drops them. So no status says that a file can't be read, and none that the text can't be written.
pub fn run_unfailing(
    alloc: Global,
    words: &[String],
    folder: &mut NeverFailsFolder,
    sink: &mut NeverFailsSink,
) -> u8
    ensures read { result ≡ 6 → ⊥ }
    ensures written { result ≡ 7 → ⊥ }

    // Words that are no row.
    ensures usage { IsNoRow (map string_bytes words.now) → result ≡ 9 }
    ensures usage_only { result ≡ 9 → IsNoRow (map string_bytes words.now) }

    // Each status comes exactly where its fact holds of the files, or memory was refused, and a text belongs to it.
    ensures exact { (row : Row) (files : List (List ℕ)) → IsAskedRow (map string_bytes words.now) (λ name. Some (bytes_or_none folder.old name)) row files →
        IsExactStatus row files result }
    ensures text { (row : Row) (files : List (List ℕ)) → IsAskedRow (map string_bytes words.now) (λ name. Some (bytes_or_none folder.old name)) row files →
        (result ≡ 8) ⊎ WritesText (Belongs row files result) None None }
{
    run(alloc, words, folder, sink)
}

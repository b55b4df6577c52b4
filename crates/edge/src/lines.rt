//! The lines that tell of a file that it wasn't read.

ghost use Rattle.std.specs.Prelude.{◌≡◌, map, string_bytes, IfOk};
ghost use Rattle.edge.specs.Lines as lines;

use std::alloc::{AllocError as NoMemory, Global};

/// What ends a line.
const LINE_END: &str = "\n";

/// The texts one after the other.
pub fn joined(alloc: Global, texts: &[&str]) -> Result<String, NoMemory>
    ensures { IfOk result (λ all. string_bytes all ≡ lines.joined_texts (map (λ text. text.now) texts.now)) }
{
    let mut all = String::new(alloc);
    for text in texts {
        all.push_str(text)?;
    }
    Ok(all)
}

/// The line on a file that could not be read.
pub fn cannot_read_line(alloc: Global, name: &str) -> Result<String, NoMemory>
    ensures { IfOk result (λ text. string_bytes text ≡ lines.cannot_read_line name.now) }
{
    joined(alloc, &["cannot read ", name, LINE_END])
}

/// The line on a file that is longer than its limit.
pub fn too_large_line(alloc: Global, name: &str) -> Result<String, NoMemory>
    ensures { IfOk result (λ text. string_bytes text ≡ lines.too_large_line name.now) }
{
    joined(alloc, &[name, " is too large", LINE_END])
}

//! The lines that say why nothing is explained.

ghost use Rattle.std.specs.Prelude.{◌≡◌, IfOk, string_bytes};
ghost use Rattle.report.specs.SourceFaults.{fault_words};
ghost use Rattle.explain_commands.specs.Faults.{error_line};

use lexer::Place;
use report::{SourceFault, write_place};
use std::alloc::{AllocError as NoMemory, Global};

/// What is written for words that ask for nothing.
pub const USAGE: &[u8] = b"usage: atomic_why FILE.. | --all FILE.. | --strict FILE..\n";

/// The line of a source that is refused, in the form of compilers: the file's name, the place, the kind.
pub fn fault_text(
    alloc: Global,
    name: &str,
    place: Place,
    fault: &SourceFault,
) -> Result<String, NoMemory>
    ensures { IfOk result (λ line. string_bytes line ≡ error_line name.now place.line place.column (fault_words fault.now)) }
{
    let mut line = String::from_str(alloc, name)?;
    line.push_str(":")?;
    write_place(&mut line, place)?;
    line.push_str(": error: ")?;
    line.push_str(fault.kind())?;
    line.push_str("\n")?;
    Ok(line)
}

//! The line for a text that is refused where it first goes wrong.

ghost use Rattle.std.specs.Prelude.{◌≡◌, string_bytes, IfOk};
ghost use Rattle.report.specs.Refused.{refused_at_line};

use base::write_number;
use std::alloc::{AllocError as NoMemory, Global};

/// `WHAT refused at byte N: KIND`. The place counts bytes from 0.
pub fn refused_at_text(
    alloc: Global,
    what: &str,
    place: u32,
    kind: &str,
) -> Result<String, NoMemory>
    ensures { IfOk result (λ line. string_bytes line ≡ refused_at_line what.now place kind.now) }
{
    let mut line = String::from_str(alloc, what)?;
    line.push_str(" refused at byte ")?;
    write_number(&mut line, place)?;
    line.push_str(": ")?;
    line.push_str(kind)?;
    line.push_str("\n")?;
    Ok(line)
}

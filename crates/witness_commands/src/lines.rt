//! The lines that tell of a schedule.

ghost use Rattle.std.specs.Prelude.{◌≡◌, IfOk, string_bytes};
ghost use Rattle.witness_commands.specs.Lines.{broken_text, broken_by_line, undecided_line, none_found_line};

use base::write_number;
use edge::joined;
use std::alloc::{AllocError as NoMemory, Global};
use witness::{Compared, Sense};

/// What is written for words that ask for nothing.
pub const USAGE: &[u8] = b"usage: atomic_witness FILE [SCHEDULE]\n";

/// The sense in which promises are broken.
fn broken_text(sense: Sense) -> &'static str
    ensures { result.now ≡ broken_text sense.by sense.full }
{
    match sense.by {
        Compared::Output => {
            if sense.full {
                "no schedule that interrupts no atomic call prints this"
            } else {
                "no order of its entries that interrupts no atomic call prints this"
            }
        }
        Compared::Objects => {
            if sense.full {
                "no schedule that interrupts no atomic call leaves this"
            } else {
                "no order of its entries that interrupts no atomic call leaves this"
            }
        }
    }
}

/// The line for a schedule whose promises are broken in this sense.
pub(crate) fn broken_line(alloc: Global, sense: Sense) -> Result<String, NoMemory>
    ensures { IfOk result (λ line. string_bytes line ≡ broken_by_line sense.by sense.full) }
{
    joined(alloc, &["broken: ", broken_text(sense), "\n"])
}

/// The line for a schedule of which nothing was found in so many states.
pub(crate) fn undecided_line(alloc: Global, seen: u32) -> Result<String, NoMemory>
    ensures { IfOk result (λ line. string_bytes line ≡ undecided_line seen) }
{
    let mut line = String::from_str(alloc, "not decided: ")?;
    write_number(&mut line, seen)?;
    line.push_str(" states were seen")?;
    line.push_str("\n")?;
    Ok(line)
}

/// The line for a source in which no witness was found, among so many schedules.
pub(crate) fn none_found_line(alloc: Global, tried: u32) -> Result<String, NoMemory>
    ensures { IfOk result (λ line. string_bytes line ≡ none_found_line tried) }
{
    let mut line = String::from_str(alloc, "no witness found: ")?;
    write_number(&mut line, tried)?;
    line.push_str(" schedules were tried")?;
    line.push_str("\n")?;
    Ok(line)
}

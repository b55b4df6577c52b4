//! Numbers in texts.
ghost use Rattle.std.specs.Prelude.{◌≡◌, ◌++◌, string_bytes, OnOk, OnErr};

use itoa::{Buffer, Integer};
use std::alloc::AllocError as NoMemory;

/// Writes a number in decimal digits, without a leading zero. After want of memory the text is as before.
pub fn write_number<N: Integer>(text: &mut String, number: N) -> Result<(), NoMemory>
    ensures written { OnOk result (string_bytes text.new ≡ string_bytes text.old ++ N.text number) }
    ensures err { OnErr result (string_bytes text.new ≡ string_bytes text.old) }
{
    let mut digits = Buffer::new();
    text.push_str(digits.format(number))
}

//! Numbers at the front of a text.
ghost use Rattle.std.specs.Prelude.{◌≡◌, ◌≤◌, ◌<◌, ◌^◌, ◌&&◌, length, nat_lt, if◌then◌else◌, Some, None, true, IfOk};
ghost use Rattle.std.specs.Char.{is_ascii_digit};
ghost use Rattle.std.specs.List.{take_while};
ghost use Rattle.std.specs.Str.{all_ascii_digits};
ghost use Rattle.std.specs.Str.Parse.{digits_value};
ghost use Rattle.books.specs.Faults.{Gives};
ghost use Rattle.books.specs.Reading.{number_digits, number_at};

use crate::stop::{Kind, Stop};

/// Where the range of 32 bits ends.
pub const NUMBERS_END: u64 = 1 << 32;

/// How many digits a text begins with.
fn run_length(text: &[u8]) -> usize
    ensures length { result ≡ length (take_while is_ascii_digit text.now) }
    ensures within { result ≤ length text.now }
{
    text.iter().take_while(|byte| byte.is_ascii_digit()).count()
}

/// The digits of the number that a text begins with: a 0 alone, or all digits.
fn digits(text: &[u8]) -> &[u8]
    ensures value { result.now ≡ number_digits text.now }
    ensures within { length result.now ≤ length text.now }
{
    let Some(first) = text.first() else {
        return text;
    };
    if *first == b'0' {
        return &text[..1];
    }
    &text[..run_length(text)]
}

/// The number that digits write, if there are any and it fits 64 bits.
fn value_of(digits: &[u8]) -> Option<u64>
    requires { all_ascii_digits digits.now ≡ true }
    ensures { result ≡ (if nat_lt 0 (length digits.now) && nat_lt (digits_value 10 digits.now) (2 ^ 64)
        then Some (digits_value 10 digits.now) else None) }
{
    if digits.is_empty() {
        return None;
    }
    let mut number = 0_u64;
    for digit in digits {
        number = number
            .checked_mul(10)?
            .checked_add(u64::from(*digit - b'0'))?;
    }
    Some(number)
}

/// The number below `end` that a text begins with.
pub fn number<'a>(text: &'a [u8], end: u64) -> Result<(u32, &'a [u8]), Stop<'a>>
    requires { end ≤ 2 ^ 32 }
    ensures read { Gives (λ x. (x.0, x.1.now)) result (number_at end text.now) }
    ensures below { IfOk result (λ x. x.0 < end) }
{
    let stop = Stop {
        kind: Kind::Form,
        rest: text,
    };
    let digits = digits(text);
    let Some(value) = value_of(digits) else {
        return Err(stop);
    };
    if value < end {
        return Ok((value as u32, &text[digits.len()..]));
    }
    Err(stop)
}

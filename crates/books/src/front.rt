//! Bytes at the front of a text.
ghost use Rattle.std.specs.Prelude.{◌≡◌, ◌∷◌, []};
ghost use Rattle.books.specs.Combine.{begins as begins_with, expect as expect_at};
ghost use Rattle.books.specs.Faults.{Gives};

use crate::stop::{Kind, Stop};

/// Whether a byte stands first.
pub fn begins(text: &[u8], byte: u8) -> bool
    ensures { result ≡ begins_with byte text.now }
{
    match text.first() {
        Some(first) => *first == byte,
        None => false,
    }
}

/// Takes this byte, or stops.
pub fn expect_byte<'a>(text: &'a [u8], byte: u8) -> Result<&'a [u8], Stop<'a>>
    ensures { Gives (λ r. (tt, r.now)) result (expect_at (byte ∷ []) text.now) }
{
    match text.split_first() {
        Some((first, rest)) if *first == byte => Ok(rest),
        _ => Err(Stop {
            kind: Kind::Form,
            rest: text,
        }),
    }
}

/// Takes these bytes, or stops at the first that differs.
pub fn expect<'a>(text: &'a [u8], wanted: &[u8]) -> Result<&'a [u8], Stop<'a>>
    ensures { Gives (λ r. (tt, r.now)) result (expect_at wanted.now text.now) }
{
    let mut rest = text;
    let mut left = wanted;
    while let Some((want, others)) = left.split_first() {
        match rest.split_first() {
            Some((byte, behind)) if byte == want => {
                rest = behind;
                left = others;
            }
            _ => {
                return Err(Stop {
                    kind: Kind::Form,
                    rest,
                });
            }
        }
    }
    Ok(rest)
}

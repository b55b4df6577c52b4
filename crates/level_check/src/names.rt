//! The parts of a line.
ghost use Rattle.std.specs.Prelude.{◌≡◌, ◌≤◌, length, true};
ghost use Rattle.std.specs.List.{take_while};
ghost use Rattle.books.specs.Faults.{Gives};
ghost use Rattle.classes.specs.Table.{class_number};
ghost use Rattle.classes.specs.Views.{table_data};
ghost use Rattle.lexer.specs.Pieces.{is_digit, is_letter, is_word, is_word_byte};
ghost use Rattle.level_check.specs.Reading.{first_word, name_at, level_at};

use books::{Kind, NUMBERS_END, Stop, expect_byte, number};
use classes::ClassTable;
use paths::ClassId;

/// Whether a byte is an ASCII letter or `_`.
fn is_letter(byte: u8) -> bool
    ensures { result ≡ is_letter byte }
{
    matches!(byte, b'a'..=b'z' | b'A'..=b'Z' | b'_')
}

/// Whether a byte is a digit.
fn is_digit(byte: u8) -> bool
    ensures { result ≡ is_digit byte }
{
    matches!(byte, b'0'..=b'9')
}

/// Whether a name goes on with a byte.
fn is_word_byte(byte: u8) -> bool
    ensures { result ≡ is_word_byte byte }
{
    is_letter(byte) || is_digit(byte)
}

/// How many bytes from the first on are such that names go on with them.
fn run_length(text: &[u8]) -> usize
    ensures length { result ≡ length (take_while is_word_byte text.now) }
    ensures within { result ≤ length text.now }
{
    text.iter().take_while(|byte| is_word_byte(**byte)).count()
}

/// How long the name is that a text begins with; 0 where no letter stands first.
fn word_length(text: &[u8]) -> usize
    ensures length { result ≡ length (first_word text.now) }
    ensures within { result ≤ length text.now }
{
    match text.first() {
        Some(first) if is_letter(*first) => run_length(text),
        _ => 0,
    }
}

/// The name that a text begins with, and what stands behind its blank.
#[tactic(auto, unfolding(crate::specs::Reading::name_at))]
pub(crate) fn name<'a>(text: &'a [u8]) -> Result<(&'a [u8], &'a [u8]), Stop<'a>>
    ensures { Gives (λ x. (x.0.now, x.1.now)) result (name_at text.now) }
{
    let length = word_length(text);
    if length == 0 {
        return Err(Stop {
            kind: Kind::Form,
            rest: text,
        });
    }
    let rest = expect_byte(&text[length..], b' ')?;
    Ok((&text[..length], rest))
}

/// The level that a text begins with, and what stands behind its line.
#[tactic(auto, unfolding(crate::specs::Reading::level_at))]
pub(crate) fn level<'a>(text: &'a [u8]) -> Result<(u32, &'a [u8]), Stop<'a>>
    ensures { Gives (λ x. (x.0, x.1.now)) result (level_at text.now) }
{
    let (level, behind) = number(text, NUMBERS_END)?;
    if level == 0 {
        return Err(Stop {
            kind: Kind::Form,
            rest: text,
        });
    }
    let rest = expect_byte(behind, b'\n')?;
    Ok((level, rest))
}

/// The class with this name.
pub(crate) fn class_of(table: &ClassTable<'_>, name: &[u8]) -> Option<ClassId>
    requires { is_word name.now ≡ true }
    ensures { result ≡ class_number (table_data table.now) name.now }
{
    let Ok(name) = str::from_utf8(name) else {
        unreachable!()
    };
    table.class_named(name)
}

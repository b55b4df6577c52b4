//! Words and basics at the front of a text.
ghost use Rattle.std.specs.Prelude.{◌≡◌, ◌++◌, codes, length, nat_le, if◌then◌else◌};
ghost use Rattle.algebra.specs.Basics.{name_of};
ghost use Rattle.books.specs.Combine.{expect as expect_at, one_of};
ghost use Rattle.books.specs.Derivations.{word_text};
ghost use Rattle.books.specs.Faults.{Gives};
ghost use Rattle.books.specs.Reading.{leaf_at, word_at_front};

use crate::front::{expect, expect_byte};
use crate::stop::{Kind, Stop};
use crate::word::Word;
use algebra::Basic;

/// All words.
const WORDS: [Word; 22] = [
    Word::Lit,
    Word::This,
    Word::Var,
    Word::Un,
    Word::Bin,
    Word::And,
    Word::Or,
    Word::Get,
    Word::New,
    Word::Call,
    Word::Local,
    Word::Set,
    Word::Put,
    Word::Block,
    Word::If,
    Word::While,
    Word::Sync,
    Word::Return,
    Word::Print,
    Word::Start,
    Word::Do,
    Word::Skip,
];

/// All basics.
const BASICS: [Basic; 5] = [
    Basic::Const,
    Basic::Mover,
    Basic::Atomic,
    Basic::Cmpd,
    Basic::Error,
];

/// Of two stops the one further on.
fn further<'a>(one: Stop<'a>, other: Stop<'a>) -> Stop<'a>
    ensures { result ≡ (if nat_le (length one.entry.rest.now) (length other.entry.rest.now) then one.entry else other.entry) }
{
    if one.rest.len() <= other.rest.len() {
        one
    } else {
        other
    }
}

/// A word and the blank behind it.
#[tactic(auto, using(crate::proofs::Fronts::expect_both))]
fn spelled<'a>(text: &'a [u8], word: Word) -> Result<&'a [u8], Stop<'a>>
    ensures { Gives (λ r. (tt, r.now)) result (expect_at (word_text word ++ codes " ") text.now) }
{
    let rest = expect(text, word.name().as_bytes())?;
    expect_byte(rest, b' ')
}

/// The one of these words that a text begins with, with the blank behind it.
fn one_word<'a>(text: &'a [u8], words: &[Word]) -> Result<(Word, &'a [u8]), Stop<'a>>
    ensures { Gives (λ x. (x.0, x.1.now)) result (one_of (λ w. word_text w ++ codes " ") words.now text.now) }
{
    let Some((word, others)) = words.split_first() else {
        return Err(Stop {
            kind: Kind::Form,
            rest: text,
        });
    };
    let here = match spelled(text, *word) {
        Ok(rest) => return Ok((*word, rest)),
        Err(stop) => stop,
    };
    match one_word(text, others) {
        Ok(found) => Ok(found),
        Err(there) => Err(further(here, there)),
    }
}

/// The byte at a place; 0 where there is none.
fn byte_at(text: &[u8], place: usize) -> u8 {
    match text.get(place) {
        Some(byte) => *byte,
        None => 0,
    }
}

/// The only word with which a text may begin, told by its first two bytes; any word where none can be told.
fn likely_word(text: &[u8]) -> Word {
    let second = byte_at(text, 1);
    match byte_at(text, 0) {
        b'a' => Word::And,
        b'b' if second == b'i' => Word::Bin,
        b'b' => Word::Block,
        b'c' => Word::Call,
        b'd' => Word::Do,
        b'g' => Word::Get,
        b'i' => Word::If,
        b'l' if second == b'i' => Word::Lit,
        b'l' => Word::Local,
        b'n' => Word::New,
        b'o' => Word::Or,
        b'p' if second == b'r' => Word::Print,
        b'p' => Word::Put,
        b'r' => Word::Return,
        b's' if second == b'e' => Word::Set,
        b's' if second == b'k' => Word::Skip,
        b's' if second == b't' => Word::Start,
        b's' => Word::Sync,
        b't' => Word::This,
        b'u' => Word::Un,
        b'v' => Word::Var,
        _ => Word::While,
    }
}

/// The word that a text begins with, with the blank behind it.
#[tactic(auto, unfolding(crate::specs::Reading::word_at_front))]
pub fn first_word<'a>(text: &'a [u8]) -> Result<(Word, &'a [u8]), Stop<'a>>
    ensures { Gives (λ x. (x.0, x.1.now)) result (word_at_front text.now) }
{
    let likely = likely_word(text);
    match spelled(text, likely) {
        Ok(rest) => Ok((likely, rest)),
        Err(_) => one_word(text, &WORDS),
    }
}

/// The name of a basic.
fn named<'a>(text: &'a [u8], basic: Basic) -> Result<&'a [u8], Stop<'a>>
    ensures { Gives (λ r. (tt, r.now)) result (expect_at (name_of basic) text.now) }
{
    expect(text, basic.name().as_bytes())
}

/// The one of these basics that a text begins with.
fn one_basic<'a>(text: &'a [u8], basics: &[Basic]) -> Result<(Basic, &'a [u8]), Stop<'a>>
    ensures { Gives (λ x. (x.0, x.1.now)) result (one_of name_of basics.now text.now) }
{
    let Some((basic, others)) = basics.split_first() else {
        return Err(Stop {
            kind: Kind::Form,
            rest: text,
        });
    };
    let here = match named(text, *basic) {
        Ok(rest) => return Ok((*basic, rest)),
        Err(stop) => stop,
    };
    match one_basic(text, others) {
        Ok(found) => Ok(found),
        Err(there) => Err(further(here, there)),
    }
}

/// The only basic with which a text may begin, told by its first two bytes; any basic where none can be told.
fn likely_basic(text: &[u8]) -> Basic {
    match byte_at(text, 0) {
        b'a' => Basic::Atomic,
        b'c' if byte_at(text, 1) == b'm' => Basic::Cmpd,
        b'c' => Basic::Const,
        b'e' => Basic::Error,
        _ => Basic::Mover,
    }
}

/// The basic that a text begins with.
#[tactic(auto, unfolding(crate::specs::Reading::leaf_at))]
pub fn leaf<'a>(text: &'a [u8]) -> Result<(Basic, &'a [u8]), Stop<'a>>
    ensures { Gives (λ x. (x.0, x.1.now)) result (leaf_at text.now) }
{
    let likely = likely_basic(text);
    match named(text, likely) {
        Ok(rest) => Ok((likely, rest)),
        Err(_) => one_basic(text, &BASICS),
    }
}

//! Certificates read from their texts.
ghost use Rattle.std.specs.Prelude.{◌≡◌, ◌≤◌, ℕ, List, length, Ok, Some, None, IfOk, IsErrOf, MatchResult};
ghost use Rattle.books.specs.Combine.{exactly};
ghost use Rattle.refutation.specs.Lines.{LineData};
ghost use Rattle.refutation.specs.Reading.{first_certificate_fault, held_at, line_at};
ghost use Rattle.refutation.specs.Texts.{IsCertificateText};
ghost use Rattle.refutation.specs.declared.text_reader.BlameFault.TheVariants as faults;

use crate::line::{Blame, Line};
use crate::short_path::ShortPath;
use crate::skip;
use crate::text_front::{count, item, last};
use books::{NUMBERS_END, Unbuilt, begins, expect_byte, leaf, number};
use paths::{MethodId, Path};
use std::alloc::Global;

/// Why bytes are no certificate's text. Places count bytes from 0.
#[derive(Clone, Copy, Debug, PartialEq, Eq)]
pub enum BlameFault {
    /// No text goes on with this byte, or the bytes end here too early, or a number out of range or a path that doesn't come after
    /// the one before it begins here.
    Form(u32),
    /// There was no memory for the lines.
    NoMemory,
}

/// The bytes of the shortest line, `0 const`.
const LEAST_LINE: usize = 8;

/// How many blanks stand in the line that a text begins with: no more paths than these.
fn blanks(text: &[u8]) -> usize {
    text.iter()
        .take_while(|byte| **byte != b'\n')
        .filter(|byte| **byte == b' ')
        .count()
}

/// The held paths that a text begins with. Room for them is asked for at once, since a list that grows takes up to twice as much.
#[tactic(auto, using(crate::proofs::Held::held_pushed, crate::proofs::Held::held_built, crate::proofs::Held::item_shorter, crate::proofs::Held::held_started))]
fn held<'a>(alloc: Global, text: &'a [u8]) -> Result<(Vec<ShortPath>, &'a [u8]), Unbuilt>
    ensures { IfOk result (λ x. held_at None text.now ≡ Ok (x.0.items, x.1.now)) }
{
    let mut built = Vec::with_capacity(alloc, blanks(text))?;
    let mut rest = text;
    let mut before: Option<Path> = None;
    while begins(rest, b' ') {
        let (path, behind) = item(rest, before.as_ref())?;
        built.push(ShortPath::of(&path))?;
        before = Some(path);
        rest = behind;
    }
    Ok((built, rest))
}

/// The line that a text begins with.
#[tactic(auto, unfolding(crate::specs::Reading::line_at))]
fn line<'a>(alloc: Global, text: &'a [u8]) -> Result<(Line, &'a [u8]), Unbuilt>
    ensures { IfOk result (λ x. line_at text.now ≡ Ok (x.0, x.1.now)) }
{
    let (method, rest) = number(text, NUMBERS_END)?;
    let rest = expect_byte(rest, b' ')?;
    let (found, rest) = leaf(rest)?;
    let (held, rest) = held(alloc, rest)?;
    let rest = expect_byte(rest, b'\n')?;
    let line = Line {
        method: MethodId(method),
        found,
        held,
    };
    Ok((line, rest))
}

/// The lines that a text begins with, so many.
#[tactic(auto, using(crate::proofs::Lines::line_pushed, crate::proofs::Lines::lines_built, crate::proofs::Lines::lines_started))]
fn lines<'a>(alloc: Global, text: &'a [u8], count: u32) -> Result<(Vec<Line>, &'a [u8]), Unbuilt>
    ensures { IfOk result (λ x. exactly count line_at text.now ≡ Ok (x.0.items, x.1.now)) }
{
    let room = (count as usize).min(text.len() / LEAST_LINE);
    let mut built = Vec::with_capacity(alloc, room)?;
    let mut rest = text;
    let mut left = count;
    while left > 0 {
        let (line, behind) = line(alloc, rest)?;
        built.push(line)?;
        rest = behind;
        left -= 1;
    }
    Ok((built, rest))
}

/// The lines of the certificate whose text these bytes are.
#[tactic(auto, using(crate::proofs::TextLaws::lines_text_is))]
fn built_lines(alloc: Global, bytes: &[u8]) -> Result<Vec<Line>, Unbuilt>
    ensures { IfOk result (λ lines. IsCertificateText bytes.now lines.items) }
{
    let (count, rest) = count(bytes)?;
    let (lines, rest) = lines(alloc, rest, count)?;
    last(rest)?;
    Ok(lines)
}

/// The certificate whose text these bytes are.
#[tactic(auto, using(crate::proofs::TextLaws::text_ascends))]
fn built(alloc: Global, bytes: &[u8]) -> Result<Blame, Unbuilt>
    ensures { IfOk result (λ blame. IsCertificateText bytes.now blame) }
{
    let lines = built_lines(alloc, bytes)?;
    Ok(Blame { lines })
}

/// The certificate whose text these bytes are, of which there are at most 16,777,216.
pub fn read_blame(alloc: Global, bytes: &[u8]) -> Result<Blame, BlameFault>
    requires { length bytes.now ≤ 16777216 }

    // Each answer is right of the bytes.
    ensures blame { IfOk result (λ blame. IsCertificateText bytes.now blame) }
    ensures fault { (place : ℕ) → IsErrOf result (faults.Form place) → first_certificate_fault bytes.now ≡ Some place }

    // It is the only right one, and is given where there is memory.
    ensures only_blame { (lines : List LineData) → IsCertificateText bytes.now lines → MatchResult result (λ blame. blame ≡ lines) (λ fault. fault ≡ faults.NoMemory) }
    ensures only_fault { (place : ℕ) → first_certificate_fault bytes.now ≡ Some place → MatchResult result (λ _. ⊥) (λ fault. fault ≡ faults.Form place) }
{
    if let Ok(blame) = built(alloc, bytes) {
        return Ok(blame);
    }
    match skip::blame(bytes) {
        Ok(_) => Err(BlameFault::NoMemory),
        Err(stop) => Err(BlameFault::Form(bytes.len().saturating_sub(stop.rest.len()) as u32)),
    }
}

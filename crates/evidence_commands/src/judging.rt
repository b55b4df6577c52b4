//! `verify FILE BOOK`.

ghost use Rattle.std.specs.Prelude.{◌≡◌, ◌≢◌, ◌≤◌, length, IfOk, MatchResult, string_bytes};
ghost use Rattle.lexer.specs.Limits.{longest_source};
ghost use Rattle.sources.specs.Limits.{longest_second_file};
ghost use Rattle.evidence_commands.specs.Books.{book_fault_line};
ghost use Rattle.book_check.specs.Faults.{IsUnjudged};
ghost use Rattle.core_program.specs.Views.{program_of};
ghost use Rattle.rules.specs.Rules.{IsAccepted};
ghost use Rattle.sources.specs.Refusals.{IsRight};
ghost use Rattle.evidence_commands.specs.RefusedBooks.{IsLineFor, Refuses};
ghost use Rattle.evidence_commands.specs.Verify.{VerifyAnswer, verified_book_line, told_line};

use crate::book_lines::{WrongKind, book_fault_text, wrong_text};
use book_check::{Checked, TextWrong, Wrong, accept_text};
use books::BookFault;
use sources::{Ending, Refusal, Source, read_source};
use std::alloc::{AllocError as NoMemory, Global};
use std::mem::forget;

/// What is written for a book that is good.
const VERIFIED: &[u8] = b"verified\n";

/// The line for the first fault of a text.
fn fault_line(alloc: Global, fault: BookFault) -> Result<String, NoMemory>
    ensures { IfOk result (λ line. (fault ≢ BookFault.NoMemory) × (string_bytes line ≡ book_fault_line fault)) }
{
    match fault {
        BookFault::Form(place) => book_fault_text(alloc, &BookFault::Form(place)),
        BookFault::TooDeep(place) => book_fault_text(alloc, &BookFault::TooDeep(place)),
        BookFault::NoMemory => Err(NoMemory),
    }
}

/// The line for what is wrong with a book first.
fn wrong_line(alloc: Global, wrong: Wrong) -> Result<String, NoMemory>
    ensures { IfOk result (λ line. (IsUnjudged wrong → ⊥) × (string_bytes line ≡ told_line wrong)) }
{
    match wrong {
        Wrong::Shape { method, node } => wrong_text(alloc, method, Some(node), WrongKind::Shape),
        Wrong::Step { method, node } => wrong_text(alloc, method, Some(node), WrongKind::Step),
        Wrong::Table { method } => wrong_text(alloc, method, None, WrongKind::Table),
        Wrong::Bound { method } => wrong_text(alloc, method, None, WrongKind::Bound),
        Wrong::Override { method } => wrong_text(alloc, method, None, WrongKind::Override),
        Wrong::Memory | Wrong::Work => Err(NoMemory),
    }
}

/// The line for what is wrong with a text.
fn line_for(alloc: Global, why: TextWrong) -> Result<String, NoMemory>
    ensures { IfOk result (λ line. IsLineFor why (string_bytes line)) }
{
    match why {
        TextWrong::Book(fault) => fault_line(alloc, fault),
        TextWrong::Wrong(wrong) => wrong_line(alloc, wrong),
    }
}

/// The refusal of a text with which this is wrong.
fn refuse_book(alloc: Global, why: TextWrong) -> Refusal
    ensures { IsRight (Refuses why) result }
{
    match line_for(alloc, why) {
        Ok(line) => Refusal::Line(Ending::BookRefused, line),
        Err(NoMemory) => Refusal::NoMemory,
    }
}

/// What is written for a checked program.
fn verified(alloc: Global, checked: &Checked) -> Result<Vec<u8>, Refusal>
    ensures { MatchResult result (λ out. (out.items ≡ verified_book_line) × IsAccepted (program_of checked.now.0)) (λ refusal. refusal ≡ Refusal.NoMemory) }
{
    checked.program();
    let text = VERIFIED.to_vec(alloc)?;
    Ok(text)
}

/// Checks a source by the text of a book, which may be anyone's, or refuses one of the two.
pub fn verify_book(alloc: Global, file: &[u8], bytes: &[u8]) -> Result<Vec<u8>, Refusal>
    requires file { length file.now ≤ longest_source }
    requires bytes { length bytes.now ≤ longest_second_file }
    ensures { MatchResult result (λ out. VerifyAnswer file.now bytes.now Ending.Done out.items) (IsRight (VerifyAnswer file.now bytes.now)) }
{
    let source = read_source(alloc, file)?;
    let Source {
        table,
        program,
        sets,
    } = source;
    forget(table);
    match accept_text(alloc, program, sets, bytes) {
        Ok(checked) => {
            let text = verified(alloc, &checked);
            forget(checked);
            text
        }
        Err(refused) => Err(refuse_book(alloc, refused.why)),
    }
}

//! `verify-blame FILE CERT`.
ghost use Rattle.std.specs.Prelude.{◌≡◌, ◌≤◌, ◌<◌, ◌^◌, ℕ, List, length, IfOk, MatchResult, string_bytes};
ghost use Rattle.lexer.specs.Limits.{longest_source};
ghost use Rattle.sources.specs.Limits.{longest_second_file};
ghost use Rattle.refutation.specs.Texts.{IsCertificateText};
ghost use Rattle.sources.specs.Checking.{IsSourceOf};
ghost use Rattle.sources.specs.Refusals.{IsRight, Tells};
ghost use Rattle.evidence_commands.specs.CertificateLines.{verified_certificate_line};
ghost use Rattle.evidence_commands.specs.RefusedCertificates.{IsFaultLine};
ghost use Rattle.evidence_commands.specs.Verifying.{VerifyBlameAnswer};

use crate::certificate_lines::wrong_text;
use refutation::{Blame, BlameFault, check_blame, read_blame};
use report::refused_at_text;
use sources::{Ending, Refusal, Source, read_source};
use std::alloc::{AllocError as NoMemory, Global};
use std::mem::forget;

/// The line for a source that the certificate refuses.
const VERIFIED: &[u8] = b"refusal verified\n";

/// The line for the first fault of a text.
fn fault_line(alloc: Global, fault: BlameFault) -> Result<String, NoMemory>
    ensures { IfOk result (λ line. IsFaultLine fault (string_bytes line)) }
{
    match fault {
        BlameFault::Form(place) => refused_at_text(alloc, "blame", place, "form"),
        BlameFault::NoMemory => Err(NoMemory),
    }
}

/// The refusal with this line, if there was memory for it.
fn refuse(line: Result<String, NoMemory>) -> Refusal
    ensures { MatchResult line (λ text. Tells Ending.BlameRefused (string_bytes text) result) (λ _. result ≡ Refusal.NoMemory) }
{
    match line {
        Ok(line) => Refusal::Line(Ending::BlameRefused, line),
        Err(NoMemory) => Refusal::NoMemory,
    }
}

/// What is written where the certificate refuses the source.
fn verified(alloc: Global) -> Result<Vec<u8>, NoMemory>
    ensures { IfOk result (λ out. out.items ≡ verified_certificate_line) }
{
    VERIFIED.to_vec(alloc)
}

/// Judges a certificate of a source.
fn judged(alloc: Global, source: &Source, blame: &Blame) -> Result<Vec<u8>, Refusal>
    requires few { length blame.now < 2 ^ 32 }
    ensures { (file bytes : List ℕ) → IsSourceOf file source.now → IsCertificateText bytes blame.now →
        MatchResult result (λ out. VerifyBlameAnswer file bytes Ending.Done out.items) (IsRight (VerifyBlameAnswer file bytes)) }
{
    match check_blame(alloc, &source.program, &source.sets, blame) {
        Ok(()) => Ok(verified(alloc)?),
        Err(wrong) => Err(refuse(wrong_text(alloc, wrong))),
    }
}

/// Reads and judges the text of a certificate of a source.
fn judged_text(alloc: Global, source: &Source, bytes: &[u8]) -> Result<Vec<u8>, Refusal>
    requires bytes { length bytes.now ≤ longest_second_file }
    ensures { (file : List ℕ) → IsSourceOf file source.now →
        MatchResult result (λ out. VerifyBlameAnswer file bytes.now Ending.Done out.items) (IsRight (VerifyBlameAnswer file bytes.now)) }
{
    match read_blame(alloc, bytes) {
        Ok(blame) => judged(alloc, source, &blame),
        Err(fault) => Err(refuse(fault_line(alloc, fault))),
    }
}

/// Checks that a certificate, which may be anyone's, refuses a source, or refuses one of the two.
pub fn verify_blame(alloc: Global, file: &[u8], bytes: &[u8]) -> Result<Vec<u8>, Refusal>
    requires file { length file.now ≤ longest_source }
    requires bytes { length bytes.now ≤ longest_second_file }
    ensures { MatchResult result (λ out. VerifyBlameAnswer file.now bytes.now Ending.Done out.items) (IsRight (VerifyBlameAnswer file.now bytes.now)) }
{
    let source = read_source(alloc, file)?;
    let text = judged_text(alloc, &source, bytes);
    forget(source);
    text
}

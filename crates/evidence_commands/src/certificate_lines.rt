//! The lines of `blame` and `verify-blame`.
ghost use Rattle.std.specs.Prelude.{◌≡◌, ◌≢◌, string_bytes, IfOk};
ghost use Rattle.refutation.specs.declared.check.BlameWrong.TheVariants as wrongs;
ghost use Rattle.evidence_commands.specs.CertificateLines.{line_line, wrong_certificate_line};

use base::write_number;
use refutation::BlameWrong;
use std::alloc::{AllocError as NoMemory, Global};

/// The line for a line of a certificate that is wrong, counted from 1.
fn line_text(alloc: Global, number: u32, kind: &str) -> Result<String, NoMemory>
    ensures { IfOk result (λ line. string_bytes line ≡ line_line number kind.now) }
{
    let mut line = String::from_str(alloc, "blame refused: line ")?;
    write_number(&mut line, number)?;
    line.push_str(": ")?;
    line.push_str(kind)?;
    line.push_str("\n")?;
    Ok(line)
}

/// The line for what is wrong with a certificate first.
pub(crate) fn wrong_text(alloc: Global, wrong: BlameWrong) -> Result<String, NoMemory>
    ensures { IfOk result (λ line. (wrong ≢ wrongs.NoMemory) × (wrong ≢ wrongs.Work) × (string_bytes line ≡ wrong_certificate_line wrong)) }
{
    match wrong {
        BlameWrong::Place { line } => line_text(alloc, line, "place"),
        BlameWrong::Step { line } => line_text(alloc, line, "step"),
        BlameWrong::NoBound => String::from_str(alloc, "blame refused: no bound broken\n"),
        BlameWrong::NoMemory | BlameWrong::Work => Err(NoMemory),
    }
}

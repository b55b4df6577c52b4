//! Certificates as texts.
ghost use Rattle.std.specs.Prelude.{◌≡◌, ◌<◌, ◌^◌, ◌++◌, true, codes, decimal, length, nat_lt, IfOk, OnOk, string_bytes};
ghost use Rattle.std.specs.List.{AllByRecursion, list_all};
ghost use Rattle.books.specs.Books.{IsPath};
ghost use Rattle.conditions.specs.Texts.{dotted, path_text};
ghost use Rattle.refutation.specs.Lines.{AreAscending};
ghost use Rattle.refutation.specs.Texts.{IsWritableLine, IsCertificateText, held_text, certificate_line_text, certificate_text};

use crate::line::{Blame, Line};
use crate::short_path::ShortPath;
use base::write_number;
use paths::{FieldId, Path};
use std::alloc::{AllocError as NoMemory, Global};

/// Where the range of 32 bits ends.
const NUMBERS_END: u64 = 1 << 32;

/// Whether all numbers fit 32 bits, as they do.
fn fields_fit(fields: &[FieldId]) -> bool
    ensures { result ≡ list_all (λ f. nat_lt f (2 ^ 32)) fields.now }
{
    fields.iter().all(|field| (field.0 as u64) < NUMBERS_END)
}

/// Whether a path can be written, as each can.
fn path_fits(path: &Path) -> bool
    ensures only { result ≡ true → IsPath path.now }
    ensures all { IsPath path.now → result ≡ true }
{
    // Only the proof needs this: that a slot's number fits 16 bits is known where the slot is read.
    let _root = path.root;
    fields_fit(path.fields.as_slice())
}

/// Whether paths can be written.
fn paths_fit(paths: &[ShortPath]) -> bool
    ensures only { result ≡ true → AllByRecursion IsPath paths.now }
    ensures all { AllByRecursion IsPath paths.now → result ≡ true }
{
    for path in paths {
        if !path_fits(&path.path()) {
            return false;
        }
    }
    true
}

/// Whether lines can be written, whose paths ascend.
fn lines_fit(lines: &[Line]) -> bool
    requires { AreAscending lines.now }
    ensures only { result ≡ true → AllByRecursion IsWritableLine lines.now }
    ensures all { AllByRecursion IsWritableLine lines.now → result ≡ true }
{
    for line in lines {
        // Only the proof needs this: that a method's number fits 32 bits is known where it is read.
        let _method = line.method.0;
        if !paths_fit(line.held.as_slice()) {
            return false;
        }
    }
    true
}

fn write_field(text: &mut String, field: FieldId) -> Result<(), NoMemory>
    ensures { OnOk result (string_bytes text.new ≡ string_bytes text.old ++ (codes "." ++ decimal field)) }
{
    text.push_str(".")?;
    write_number(text, field.0)
}

fn write_fields(text: &mut String, fields: &[FieldId]) -> Result<(), NoMemory>
    ensures { OnOk result (string_bytes text.new ≡ string_bytes text.old ++ dotted fields.now) }
{
    for field in fields {
        write_field(text, *field)?;
    }
    Ok(())
}

fn write_path(text: &mut String, path: &Path) -> Result<(), NoMemory>
    ensures { OnOk result (string_bytes text.new ≡ string_bytes text.old ++ (codes " " ++ path_text path.now)) }
{
    text.push_str(" ")?;
    write_number(text, u32::from(path.root))?;
    write_fields(text, path.fields.as_slice())
}

fn write_held(text: &mut String, held: &[ShortPath]) -> Result<(), NoMemory>
    ensures { OnOk result (string_bytes text.new ≡ string_bytes text.old ++ held_text held.now) }
{
    for path in held {
        write_path(text, &path.path())?;
    }
    Ok(())
}

fn write_line(text: &mut String, line: &Line) -> Result<(), NoMemory>
    ensures { OnOk result (string_bytes text.new ≡ string_bytes text.old ++ certificate_line_text line.now) }
{
    write_number(text, line.method.0)?;
    text.push_str(" ")?;
    text.push_str(line.found.name())?;
    write_held(text, line.held.as_slice())?;
    text.push_str("\n")
}

fn write_lines(text: &mut String, lines: &[Line]) -> Result<(), NoMemory>
    ensures { OnOk result (string_bytes text.new ≡ string_bytes text.old ++ certificate_text lines.now) }
{
    for line in lines {
        write_line(text, line)?;
    }
    Ok(())
}

/// The text of a certificate.
pub fn write_blame(alloc: Global, blame: &Blame) -> Result<Vec<u8>, NoMemory>
    requires { length blame.now < 2 ^ 32 }
    ensures { IfOk result (λ bytes. IsCertificateText bytes.items blame.now) }
{
    // Only the proof needs this: the paths of each line ascend.
    blame.ascends();
    let lines = blame.lines();
    if !lines_fit(lines) {
        return Err(NoMemory);
    }
    let mut text = String::new(alloc);
    text.push_str("blame ")?;
    write_number(&mut text, lines.len() as u32)?;
    text.push_str("\n")?;
    write_lines(&mut text, lines)?;
    text.push_str("end\n")?;
    Ok(text.into_bytes())
}

//! Where the first fault of a source is told, and its line.

ghost use Rattle.std.specs.Prelude.{◌≡◌, ◌≤◌, ◌++◌, length, string_bytes, IfOk, OnOk};
ghost use Rattle.lexer.specs.Limits.{longest_source};
ghost use Rattle.lexer.specs.Places.{line_of, column_of, place_text};
ghost use Rattle.report.specs.SourceFaults.{source_fault_offset, lex_offset_of, class_offset_of, type_offset_of, fault_words, lex_kind, parse_kind, class_kind, type_kind, refused_at_place};

use base::write_number;
use classes::ClassFault;
use lexer::{LexFault, NotText, Place, place_of};
use parser::ParseFault;
use std::alloc::{AllocError as NoMemory, Global};
use typing::TypeFault;

/// Why a source is refused as it stands, with the offset in bytes, from 0, at which that is told.
#[derive(Clone, Copy, Debug)]
pub enum SourceFault {
    /// The bytes aren't UTF-8.
    Text(NotText),
    /// The text has no tokens.
    Lex(LexFault),
    /// The tokens are those of no program. `at` is the offset of the faulty token, or the length of the text for its end.
    Parse { fault: ParseFault, at: u32 },
    /// The program has no class table.
    Class(ClassFault),
    /// The program has no core program.
    Types(TypeFault),
    /// A method has too many relevant or local paths. `at` is the offset of its name.
    Locks { at: u32 },
}

impl SourceFault {
    ghost use Rattle.report.specs.SourceFaults.{source_fault_offset, fault_words};

    fn at(&self) -> u32
        ensures { result ≡ source_fault_offset self.now }
    {
        match self {
            SourceFault::Text(fault) => fault.at,
            SourceFault::Lex(fault) => lex_offset(*fault),
            SourceFault::Parse { at, .. } | SourceFault::Locks { at } => *at,
            SourceFault::Class(fault) => class_offset(*fault),
            SourceFault::Types(fault) => type_offset(*fault),
        }
    }

    /// The place in this text at which the fault is told; one past the text's end is told at the end.
    pub fn place(&self, text: &str) -> Place
        requires { length text.now ≤ longest_source }
        ensures line { result.line ≡ line_of text.now (source_fault_offset self.now) }
        ensures column { result.column ≡ column_of text.now (source_fault_offset self.now) }
    {
        place_in(text, self.at())
    }

    /// The words for the fault.
    pub fn kind(&self) -> &'static str
        ensures { result.now ≡ fault_words self.now }
    {
        match self {
            SourceFault::Text(_) => "not text",
            SourceFault::Lex(fault) => lex_kind(*fault),
            SourceFault::Parse { fault, .. } => parse_kind(*fault),
            SourceFault::Class(fault) => class_kind(*fault),
            SourceFault::Types(fault) => type_kind(*fault),
            SourceFault::Locks { .. } => "too many locks",
        }
    }
}

fn lex_kind(fault: LexFault) -> &'static str
    ensures { result.now ≡ lex_kind fault }
{
    match fault {
        LexFault::BadCharacter(_) => "bad character",
        LexFault::OpenComment(_) => "open comment",
        LexFault::LiteralTooLarge(_) => "literal too large",
        LexFault::NameTooLong(_) => "name too long",
        LexFault::NoMemory => "",
    }
}

fn parse_kind(fault: ParseFault) -> &'static str
    ensures { result.now ≡ parse_kind fault }
{
    match fault {
        ParseFault::Unexpected(_) => "unexpected",
        ParseFault::TooDeep(_) => "too deep",
        ParseFault::NoMemory => "",
    }
}

fn class_kind(fault: ClassFault) -> &'static str
    ensures { result.now ≡ class_kind fault }
{
    match fault {
        ClassFault::Twice(_) => "declared twice",
        ClassFault::UnknownClass(_) => "unknown class",
        ClassFault::BadConstructor(_) => "bad constructor",
        ClassFault::NoMain => "no main",
        ClassFault::NoRun(_) => "no run",
        ClassFault::TooMany(_) => "too many",
        ClassFault::Circle(_) => "circle",
        ClassFault::BadOverride(_) => "bad override",
        ClassFault::NoMemory => "",
    }
}

fn type_kind(fault: TypeFault) -> &'static str
    ensures { result.now ≡ type_kind fault }
{
    match fault {
        TypeFault::UnknownName(_) => "unknown name",
        TypeFault::NoRule(_) => "no rule",
        TypeFault::FinalAssigned(_) => "final assigned",
        TypeFault::NotALock(_) => "not a lock",
        TypeFault::MissingReturn(_) => "missing return",
        TypeFault::Unreachable(_) => "unreachable",
        TypeFault::TooManyLocals(_) => "too many locals",
        TypeFault::Redeclared(_) => "redeclared",
        TypeFault::NoMemory => "",
    }
}

fn lex_offset(fault: LexFault) -> u32
    ensures { result ≡ lex_offset_of fault }
{
    match fault {
        LexFault::BadCharacter(at)
        | LexFault::OpenComment(at)
        | LexFault::LiteralTooLarge(at)
        | LexFault::NameTooLong(at) => at,
        LexFault::NoMemory => 0,
    }
}

fn class_offset(fault: ClassFault) -> u32
    ensures { result ≡ class_offset_of fault }
{
    match fault {
        ClassFault::Twice(at)
        | ClassFault::UnknownClass(at)
        | ClassFault::BadConstructor(at)
        | ClassFault::NoRun(at)
        | ClassFault::TooMany(at)
        | ClassFault::Circle(at)
        | ClassFault::BadOverride(at) => at,
        ClassFault::NoMain | ClassFault::NoMemory => 0,
    }
}

fn type_offset(fault: TypeFault) -> u32
    ensures { result ≡ type_offset_of fault }
{
    match fault {
        TypeFault::UnknownName(at)
        | TypeFault::NoRule(at)
        | TypeFault::FinalAssigned(at)
        | TypeFault::NotALock(at)
        | TypeFault::MissingReturn(at)
        | TypeFault::Unreachable(at)
        | TypeFault::TooManyLocals(at)
        | TypeFault::Redeclared(at) => at,
        TypeFault::NoMemory => 0,
    }
}

/// The place of an offset in a text; one past the text's end stands at the end.
fn place_in(text: &str, at: u32) -> Place
    requires { length text.now ≤ longest_source }
    ensures line { result.line ≡ line_of text.now at }
    ensures column { result.column ≡ column_of text.now at }
{
    place_of(text, at.min(text.len() as u32))
}

/// Writes a place.
pub fn write_place(text: &mut String, place: Place) -> Result<(), NoMemory>
    ensures { OnOk result (string_bytes text.new ≡ string_bytes text.old ++ place_text place.line place.column) }
{
    write_number(text, place.line)?;
    text.push_str(":")?;
    write_number(text, place.column)
}

/// The line of a source that is refused at this place for this fault.
pub fn refused_text(alloc: Global, place: Place, fault: &SourceFault) -> Result<String, NoMemory>
    ensures { IfOk result (λ line. string_bytes line ≡ refused_at_place place.line place.column (fault_words fault.now)) }
{
    let mut line = String::from_str(alloc, "refused at ")?;
    write_place(&mut line, place)?;
    line.push_str(": ")?;
    line.push_str(fault.kind())?;
    line.push_str("\n")?;
    Ok(line)
}

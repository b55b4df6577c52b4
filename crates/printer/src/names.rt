//! Writes names, types and locks.
#![tactic(auto, using(crate::proofs::Writing::writes_none, crate::proofs::Writing::writes_one, crate::proofs::Writing::writes_both))]

ghost use Rattle.std.specs.Prelude.{◌≡◌, OnOk};
ghost use Rattle.printer.specs.Layout.{put, writes};
ghost use Rattle.printer.specs.Printing.{all_lexemes, dotted_lexemes, flag_lexemes, lock_lexemes, name_lexeme, root_lexeme, type_lexeme};
ghost use Rattle.syntax.specs.Views.{lock_of};

use crate::page::Printer;
use std::alloc::AllocError as NoMemory;
use syntax::{Lock, Name, Terminal, TypeName};

pub(crate) fn write_flag(to: &mut Printer, terminal: Terminal, stands: bool) -> Result<(), NoMemory>
    ensures { OnOk result (to.new ≡ writes to.old (flag_lexemes terminal stands)) }
{
    if !stands {
        return Ok(());
    }
    to.terminal(terminal)
}

pub(crate) fn write_name(to: &mut Printer, name: &Name) -> Result<(), NoMemory>
    ensures { OnOk result (to.new ≡ put to.old (name_lexeme name.now)) }
{
    to.name(name.text)
}

pub(crate) fn write_type(to: &mut Printer, ty: &TypeName) -> Result<(), NoMemory>
    ensures { OnOk result (to.new ≡ put to.old (type_lexeme ty.now)) }
{
    match ty {
        TypeName::Int => to.terminal(Terminal::Int),
        TypeName::Boolean => to.terminal(Terminal::Boolean),
        TypeName::Class(name) => write_name(to, name),
    }
}

pub(crate) fn write_lock(to: &mut Printer, lock: &Lock) -> Result<(), NoMemory>
    ensures { OnOk result (to.new ≡ writes to.old (lock_lexemes (lock_of lock.now))) }
{
    write_root(to, &lock.root)?;
    write_fields(to, &lock.fields)
}

fn write_fields(to: &mut Printer, fields: &[Name]) -> Result<(), NoMemory>
    ensures { OnOk result (to.new ≡ writes to.old (all_lexemes dotted_lexemes fields.now)) }
{
    for field in fields {
        write_dotted(to, field)?;
    }
    Ok(())
}

fn write_root(to: &mut Printer, root: &Option<Name>) -> Result<(), NoMemory>
    ensures { OnOk result (to.new ≡ put to.old (root_lexeme root.now)) }
{
    match root {
        Some(name) => write_name(to, name),
        None => to.terminal(Terminal::This),
    }
}

pub(crate) fn write_dotted(to: &mut Printer, name: &Name) -> Result<(), NoMemory>
    ensures { OnOk result (to.new ≡ writes to.old (dotted_lexemes name.now)) }
{
    to.terminal(Terminal::Dot)?;
    write_name(to, name)
}

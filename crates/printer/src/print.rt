//! Writes the canonical text of programs: classes and members.
#![tactic(auto, using(crate::proofs::Writing::writes_none, crate::proofs::Writing::writes_one, crate::proofs::Writing::writes_both))]

ghost use Rattle.std.specs.Prelude.{◌≡◌, ℕ, false, List, IfOk, OnOk, map, string_bytes};
ghost use Rattle.std.specs.Option.{option_map};
ghost use Rattle.lexer.specs.declared.tokens.Token.{Token};
ghost use Rattle.lexer.specs.Tokens.{Tokens};
ghost use Rattle.syntax.specs.Grammar.{Grammar};
ghost use Rattle.printer.specs.Reprinted.{ReadsBack};
ghost use Rattle.printer.specs.Layout.{put, writes};
ghost use Rattle.printer.specs.Printing.{all_lexemes, canonical, class_lexemes, extends_lexemes, field_lexemes, further_lexemes, guard_lexemes, listed_lexemes, lock_lexemes, member_lexemes, method_lexemes, param_lexemes, requires_lexemes, result_lexeme, runnable_lexemes, set_lexemes};
ghost use Rattle.syntax.specs.Trees.{CtorM};
ghost use Rattle.syntax.specs.Tokens.{guard_word as word_of};
ghost use Rattle.syntax.specs.Views.{class_of, lock_of, member_of, program_tree, stmt_of, stmts_from};

use crate::names::{write_flag, write_lock, write_name, write_type};
use crate::page::Printer;
use crate::statements::write_stmts;
use std::alloc::{AllocError as NoMemory, Global};
use syntax::{Class, Lock, Member, Name, Param, Program, Stmt, Terminal, TypeName};

/// The canonical text of a program. A line ends after each `{`, `}` and `;` and begins with four blanks for each open
/// brace. `public` isn't written, nor is `final` on a constructor's parameter.
pub fn print_program(alloc: Global, program: &Program) -> Result<String, NoMemory>
    ensures text { IfOk result (λ text. string_bytes text ≡ canonical (program_tree program.now)) }
    ensures reads_back { (source : List ℕ) (ts : List Token) → Tokens source ts → Grammar ts (program_tree program.now)
        → IfOk result (λ text. ReadsBack (string_bytes text) (program_tree program.now)) }
{
    let mut printer = Printer::new(alloc);
    write_classes(&mut printer, &program.classes)?;
    Ok(printer.into_text())
}

fn write_classes(to: &mut Printer, classes: &[Class]) -> Result<(), NoMemory>
    ensures { OnOk result (to.new ≡ writes to.old (all_lexemes class_lexemes (map class_of classes.now))) }
{
    for class in classes {
        write_class(to, class)?;
    }
    Ok(())
}

fn write_class(to: &mut Printer, class: &Class) -> Result<(), NoMemory>
    ensures { OnOk result (to.new ≡ writes to.old (class_lexemes (class_of class.now))) }
{
    to.terminal(Terminal::Class)?;
    write_name(to, &class.name)?;
    write_extends(to, &class.above)?;
    write_runnable(to, class.runnable)?;
    to.terminal(Terminal::OpenBrace)?;
    write_members(to, &class.members)?;
    to.terminal(Terminal::CloseBrace)
}

fn write_extends(to: &mut Printer, above: &Option<Name>) -> Result<(), NoMemory>
    ensures { OnOk result (to.new ≡ writes to.old (extends_lexemes above.now)) }
{
    let Some(name) = above else {
        return Ok(());
    };
    to.terminal(Terminal::Extends)?;
    write_name(to, name)
}

fn write_runnable(to: &mut Printer, runnable: bool) -> Result<(), NoMemory>
    ensures { OnOk result (to.new ≡ writes to.old (runnable_lexemes runnable)) }
{
    if !runnable {
        return Ok(());
    }
    to.terminal(Terminal::Implements)?;
    to.terminal(Terminal::Runnable)
}

fn write_members(to: &mut Printer, members: &[Member]) -> Result<(), NoMemory>
    ensures { OnOk result (to.new ≡ writes to.old (all_lexemes member_lexemes (map member_of members.now))) }
{
    for member in members {
        write_member(to, member)?;
    }
    Ok(())
}

fn write_member(to: &mut Printer, member: &Member) -> Result<(), NoMemory>
    ensures { OnOk result (to.new ≡ writes to.old (member_lexemes (member_of member.now))) }
{
    match member {
        Member::Field {
            is_final,
            ty,
            name,
            guard,
            writes_only,
        } => write_field(to, *is_final, ty, name, guard, *writes_only),
        Member::Ctor { name, params, sets } => write_constructor(to, name, params, sets),
        Member::Method {
            atomic,
            result,
            name,
            params,
            requires_,
            body,
            end: _,
        } => {
            write_flag(to, Terminal::Atomic, *atomic)?;
            write_method(to, result, name, params, requires_, body)
        }
    }
}

fn write_field(
    to: &mut Printer,
    is_final: bool,
    ty: &TypeName,
    name: &Name,
    guard: &Option<Lock>,
    writes_only: bool,
) -> Result<(), NoMemory>
    ensures { OnOk result (to.new ≡ writes to.old (field_lexemes record { is_final = is_final; ty = ty.now; name = name.now; guard = option_map lock_of guard.now; writes_only = writes_only })) }
{
    write_flag(to, Terminal::Final, is_final)?;
    write_type(to, ty)?;
    write_name(to, name)?;
    write_guard(to, guard, writes_only)?;
    to.terminal(Terminal::Semicolon)
}

fn write_constructor(
    to: &mut Printer,
    name: &Name,
    params: &[Param],
    sets: &[(Name, Name)],
) -> Result<(), NoMemory>
    ensures { OnOk result (to.new ≡ writes to.old (member_lexemes (CtorM name.now params.now sets.now))) }
{
    write_name(to, name)?;
    to.terminal(Terminal::OpenParen)?;
    write_params(to, params, false)?;
    to.terminal(Terminal::CloseParen)?;
    to.terminal(Terminal::OpenBrace)?;
    write_sets(to, sets)?;
    to.terminal(Terminal::CloseBrace)
}

/// Writes a method from its result on.
fn write_method(
    to: &mut Printer,
    result_type: &Option<TypeName>,
    name: &Name,
    params: &[Param],
    locks: &[Lock],
    body: &[Stmt],
) -> Result<(), NoMemory>
    ensures { OnOk result (to.new ≡ writes to.old (method_lexemes false result_type.now name.now params.now (map lock_of locks.now) (stmts_from (map stmt_of body.now)))) }
{
    write_result(to, result_type)?;
    write_name(to, name)?;
    to.terminal(Terminal::OpenParen)?;
    write_params(to, params, true)?;
    to.terminal(Terminal::CloseParen)?;
    write_requires(to, locks)?;
    to.terminal(Terminal::OpenBrace)?;
    write_stmts(to, body)?;
    to.terminal(Terminal::CloseBrace)
}

fn write_result(to: &mut Printer, result_type: &Option<TypeName>) -> Result<(), NoMemory>
    ensures { OnOk result (to.new ≡ put to.old (result_lexeme result_type.now)) }
{
    match result_type {
        Some(ty) => write_type(to, ty),
        None => to.terminal(Terminal::Void),
    }
}

/// Writes parameters with commas between them, with their `final` where that is kept.
fn write_params(to: &mut Printer, params: &[Param], keeps_final: bool) -> Result<(), NoMemory>
    ensures { OnOk result (to.new ≡ writes to.old (listed_lexemes (param_lexemes keeps_final) params.now)) }
{
    let Some((first, rest)) = params.split_first() else {
        return Ok(());
    };
    write_param(to, first, keeps_final)?;
    write_further_params(to, rest, keeps_final)
}

fn write_further_params(
    to: &mut Printer,
    params: &[Param],
    keeps_final: bool,
) -> Result<(), NoMemory>
    ensures { OnOk result (to.new ≡ writes to.old (further_lexemes (param_lexemes keeps_final) params.now)) }
{
    for param in params {
        to.terminal(Terminal::Comma)?;
        write_param(to, param, keeps_final)?;
    }
    Ok(())
}

fn write_param(to: &mut Printer, param: &Param, keeps_final: bool) -> Result<(), NoMemory>
    ensures { OnOk result (to.new ≡ writes to.old (param_lexemes keeps_final param.now)) }
{
    write_flag(to, Terminal::Final, keeps_final && param.is_final)?;
    write_type(to, &param.ty)?;
    write_name(to, &param.name)
}

/// Writes the assignments of a constructor.
fn write_sets(to: &mut Printer, sets: &[(Name, Name)]) -> Result<(), NoMemory>
    ensures { OnOk result (to.new ≡ writes to.old (all_lexemes set_lexemes sets.now)) }
{
    for set in sets {
        write_set(to, set)?;
    }
    Ok(())
}

fn write_set(to: &mut Printer, set: &(Name, Name)) -> Result<(), NoMemory>
    ensures { OnOk result (to.new ≡ writes to.old (set_lexemes set.now)) }
{
    to.terminal(Terminal::This)?;
    to.terminal(Terminal::Dot)?;
    write_name(to, &set.0)?;
    to.terminal(Terminal::Assign)?;
    write_name(to, &set.1)?;
    to.terminal(Terminal::Semicolon)
}

/// The word before a guard.
fn guard_word(writes_only: bool) -> Terminal
    ensures { result ≡ word_of writes_only }
{
    if writes_only {
        Terminal::WriteGuardedBy
    } else {
        Terminal::GuardedBy
    }
}

fn write_guard(to: &mut Printer, guard: &Option<Lock>, writes_only: bool) -> Result<(), NoMemory>
    ensures { OnOk result (to.new ≡ writes to.old (guard_lexemes writes_only (option_map lock_of guard.now))) }
{
    let Some(lock) = guard else {
        return Ok(());
    };
    to.terminal(guard_word(writes_only))?;
    write_lock(to, lock)
}

fn write_requires(to: &mut Printer, locks: &[Lock]) -> Result<(), NoMemory>
    ensures { OnOk result (to.new ≡ writes to.old (requires_lexemes (map lock_of locks.now))) }
{
    let Some((first, rest)) = locks.split_first() else {
        return Ok(());
    };
    to.terminal(Terminal::Requires)?;
    write_lock(to, first)?;
    write_further_locks(to, rest)
}

fn write_further_locks(to: &mut Printer, locks: &[Lock]) -> Result<(), NoMemory>
    ensures { OnOk result (to.new ≡ writes to.old (further_lexemes lock_lexemes (map lock_of locks.now))) }
{
    for lock in locks {
        to.terminal(Terminal::Comma)?;
        write_lock(to, lock)?;
    }
    Ok(())
}

//! The names of slots.

ghost use Rattle.std.specs.Prelude.{◌≡◌, ◌++◌, map, slice_get, unwrap_or, [], IfOk, OnOk};
ghost use Rattle.syntax.specs.Views.{member_of, stmt_of, stmts_from};
ghost use Rattle.places.specs.Slots.{block_locals, local_names, member_slots};

use std::alloc::{AllocError as NoMemory, Global};
use std::marker::Model;
use syntax::{Member, Stmt};

/// The names of a method's slots, as slices of the source: `this`, the parameters, the locals in the order of their declarations.
#[derive(Drop)]
pub struct SlotNames<'a> {
    names: Vec<&'a str>,
}

impl<'a> Model for SlotNames<'a> {
    ghost use Rattle.std.specs.Prelude.{ℕ, List, map};

    ghost Value = { List (List ℕ) };

    ghost view = { λ s. map (λ name. name.now) s.names.items };
}

impl<'a> SlotNames<'a> {
    /// The name of a slot; empty where the method hasn't one.
    pub fn name(&self, slot: u16) -> &'a str
        ensures { result.now ≡ unwrap_or (slice_get self.now slot) [] }
    {
        self.names.get(slot as usize).copied().unwrap_or("")
    }
}

/// Adds the names of the locals that a statement declares.
#[cycle(locals)]
fn add_locals<'a>(s: &Stmt<'a>, names: &mut Vec<&'a str>) -> Result<(), NoMemory>
    ensures { OnOk result (map (λ name. name.now) names.new.items ≡ map (λ name. name.now) names.old.items ++ local_names (stmt_of s.now)) }
{
    match s {
        Stmt::Local { name, .. } => {
            names.push(name.text)?;
            Ok(())
        }
        Stmt::Block(body, _) => add_each(body.as_slice(), names),
        Stmt::Sync(_, body, _) => add_each(body.as_slice(), names),
        Stmt::If(_, then, None, _) => add_locals(then, names),
        Stmt::If(_, then, Some(other), _) => {
            add_locals(then, names)?;
            add_locals(other, names)
        }
        Stmt::While(_, body, _) => add_locals(body, names),
        Stmt::Empty(_)
        | Stmt::SetVar(_, _, _)
        | Stmt::SetField(_, _, _, _)
        | Stmt::Do(_, _)
        | Stmt::Return(_, _)
        | Stmt::Print(_, _)
        | Stmt::Start(_, _) => Ok(()),
    }
}

/// Adds those of the statements of a block.
#[cycle(locals)]
fn add_each<'a>(body: &[Stmt<'a>], names: &mut Vec<&'a str>) -> Result<(), NoMemory>
    ensures { OnOk result (map (λ name. name.now) names.new.items ≡ map (λ name. name.now) names.old.items ++ block_locals (stmts_from (map stmt_of body.now))) }
{
    for s in body {
        add_locals(s, names)?;
    }
    Ok(())
}

/// The names of the slots of a method; none of another member.
pub fn slot_names<'a>(alloc: Global, member: &Member<'a>) -> Result<SlotNames<'a>, NoMemory>
    ensures { IfOk result (λ names. names ≡ member_slots (member_of member.now)) }
{
    let mut names = Vec::new(alloc);
    if let Member::Method { params, body, .. } = member {
        names.push("this")?;
        for param in params {
            names.push(param.name.text)?;
        }
        add_each(body.as_slice(), &mut names)?;
    }
    Ok(SlotNames { names })
}

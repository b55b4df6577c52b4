//! The explanations of a program whose methods all count as `atomic`, but those that threads begin with.

ghost use Rattle.std.specs.Prelude.{◌≡◌, ◌≤◌, ◌^◌, ◌++◌, map, length, IfOk, OnOk};
ghost use Rattle.core_program.specs.Views.{method_of, program_of};
ghost use Rattle.rules.specs.Near.{rel_of};
ghost use Rattle.rules.specs.Search.{row_at};
ghost use Rattle.explain.specs.Strict.{AreEntryMarks, entries_behind, is_settled, keep_all, keeps_strictly, refused_strictly, settled_from, strict_bound, strict_explanations, strict_limit, strictly_told};
ghost use Rattle.explain.specs.Views.{explained_data};

use crate::entries::{entry_marks, is_thread_entry};
use crate::grounds::Ground;
use crate::program::{Basis, Explained, explain_method, follow, led_to};
use crate::walk::Walk;
use algebra::Basic;
use core_program::{CoreMethod, CoreProgram};
use effects::Assigned;
use paths::MethodId;
use rules::{OverridingMethods, bound_of};
use std::alloc::AllocError as NoMemory;

/// The greatest basic that a method may have.
fn strict_bound(program: &CoreProgram, marks: &[bool], id: MethodId, method: &CoreMethod) -> Basic
    requires { AreEntryMarks (program_of program.now) marks.now }
    ensures { result ≡ strict_bound (program_of program.now) id (method_of method.now) }
{
    bound_of(method.annotated || !is_thread_entry(program, marks, id))
}

/// Whether a method has no more.
fn keeps_strictly<A: Assigned>(
    walk: &Walk<'_, A>,
    marks: &[bool],
    id: MethodId,
    method: &CoreMethod,
) -> bool
    requires { AreEntryMarks (program_of walk.now.program.now) marks.now }
    ensures { result ≡ keeps_strictly (program_of walk.now.program.now) (A.Assigned.assigned walk.now.assigned.now) id (method_of method.now) }
{
    let found = walk.assigned.at(id, method.requires_.as_slice());
    found.below(Basic::Atomic) || found.below(strict_bound(walk.program, marks, id, method))
}

/// The greatest basic that a method may have without being told.
pub(crate) fn strict_limit<A: Assigned>(
    walk: &Walk<'_, A>,
    marks: &[bool],
    id: MethodId,
    method: &CoreMethod,
) -> Basic
    requires { AreEntryMarks (program_of walk.now.program.now) marks.now }
    ensures { result ≡ strict_limit (program_of walk.now.program.now) (A.Assigned.assigned walk.now.assigned.now) id (method_of method.now) }
{
    if keeps_strictly(walk, marks, id, method) {
        Basic::Atomic
    } else {
        strict_bound(walk.program, marks, id, method)
    }
}

/// Whether every method has no more than its bound.
pub fn keep_strictly<A: Assigned>(walk: &Walk<'_, A>) -> bool
    requires { length (program_of walk.now.program.now).methods ≤ 2 ^ 32 }
    ensures { result ≡ keep_all (program_of walk.now.program.now) (A.Assigned.assigned walk.now.assigned.now) }
{
    let none = Vec::new(walk.alloc);
    for (m, method) in walk.program.methods().iter().enumerate() {
        if !keeps_strictly(walk, none.as_slice(), MethodId(m as u32), method) {
            return false;
        }
    }
    true
}

/// Adds the explanation of a method, where it has more.
fn add_strict<'p, A: Assigned>(
    basis: &Basis<'_, 'p, A>,
    marks: &[bool],
    id: MethodId,
    method: &'p CoreMethod,
    all: &mut Vec<Explained<'p>>,
) -> Result<(), NoMemory>
    requires { AreEntryMarks (program_of basis.now.walk.now.program.now) marks.now }
    ensures { OnOk result (map explained_data all.new.items ≡ map explained_data all.old.items
        ++ strictly_told (program_of basis.now.walk.now.program.now) (rel_of basis.now.walk.now.sets.now) (A.Assigned.assigned basis.now.walk.now.assigned.now) (row_at basis.now.over.now) basis.now.grounds.now id (method_of method.now)) }
{
    if keeps_strictly(basis.walk, marks, id, method) {
        return Ok(());
    }
    let limit = strict_bound(basis.walk.program, marks, id, method);
    let x = explain_method(basis, id, method, true, limit)?;
    all.push(x)?;
    Ok(())
}

/// The explanations of the methods that have more, in source order.
fn refused_strictly<'b, 'p, A: Assigned>(
    walk: &'b Walk<'p, A>,
    over: &'b OverridingMethods,
    grounds: &'b [Ground],
    marks: &[bool],
) -> Result<Vec<Explained<'p>>, NoMemory>
    requires marks { AreEntryMarks (program_of walk.now.program.now) marks.now }
    requires few { length (program_of walk.now.program.now).methods ≤ 2 ^ 32 }
    ensures { IfOk result (λ all. map explained_data all.items ≡ refused_strictly (program_of walk.now.program.now) (rel_of walk.now.sets.now) (A.Assigned.assigned walk.now.assigned.now) (row_at over.now) grounds.now) }
{
    let mut all = Vec::new(walk.alloc);
    for (m, method) in walk.program.methods().iter().enumerate() {
        let basis = Basis {
            walk,
            over,
            grounds,
        };
        add_strict(&basis, marks, MethodId(m as u32), method, &mut all)?;
    }
    Ok(all)
}

/// Whether a method needs no lines as a compound one that keeps its bound: it has more, and is told for that, or it is atomic.
fn is_settled<A: Assigned>(
    walk: &Walk<'_, A>,
    marks: &[bool],
    id: MethodId,
    method: &CoreMethod,
) -> bool
    requires { AreEntryMarks (program_of walk.now.program.now) marks.now }
    ensures { result ≡ is_settled (program_of walk.now.program.now) (A.Assigned.assigned walk.now.assigned.now) id (method_of method.now) }
{
    let found = walk.assigned.at(id, method.requires_.as_slice());
    !keeps_strictly(walk, marks, id, method) || found.below(Basic::Atomic)
}

/// The same of each method.
fn settled<A: Assigned>(walk: &Walk<'_, A>, marks: &[bool]) -> Result<Vec<bool>, NoMemory>
    requires marks { AreEntryMarks (program_of walk.now.program.now) marks.now }
    requires few { length (program_of walk.now.program.now).methods ≤ 2 ^ 32 }
    ensures { IfOk result (λ all. all.items ≡ settled_from (program_of walk.now.program.now) (A.Assigned.assigned walk.now.assigned.now) 0 (program_of walk.now.program.now).methods) }
{
    let mut all = Vec::new(walk.alloc);
    for (m, method) in walk.program.methods().iter().enumerate() {
        all.push(is_settled(walk, marks, MethodId(m as u32), method))?;
    }
    Ok(all)
}

/// The explanations of the compound methods that threads begin with and to which one of these leads, or one that is led to.
fn entries_behind<'b, 'p, A: Assigned>(
    walk: &'b Walk<'p, A>,
    over: &'b OverridingMethods,
    grounds: &'b [Ground],
    marks: &[bool],
    refused: &[Explained<'_>],
) -> Result<Vec<Explained<'p>>, NoMemory>
    requires marks { AreEntryMarks (program_of walk.now.program.now) marks.now }
    requires few { length (program_of walk.now.program.now).methods ≤ 2 ^ 32 }
    ensures { IfOk result (λ all. let P = program_of walk.now.program.now in let T = A.Assigned.assigned walk.now.assigned.now in
        map explained_data all.items ≡ entries_behind P (rel_of walk.now.sets.now) T (row_at over.now) grounds.now (settled_from P T 0 P.methods) (map explained_data refused.now)) }
{
    let mut all = Vec::new(walk.alloc);
    let mut told = settled(walk, marks)?;
    let basis = Basis {
        walk,
        over,
        grounds,
    };
    let most = walk.program.methods().len();
    for x in refused {
        follow(&basis, most, led_to(&x.why), &mut told, &mut all)?;
    }
    Ok(all)
}

/// The explanations of the methods that have more than they may where each counts as `atomic` but those that threads begin with, in source
/// order; behind them those of the compound ones that threads begin with and to which one of these leads, or one that is led to.
pub fn strict_explanations<'b, 'p, A: Assigned>(
    walk: &'b Walk<'p, A>,
    over: &'b OverridingMethods,
    grounds: &'b [Ground],
) -> Result<Vec<Explained<'p>>, NoMemory>
    requires { length (program_of walk.now.program.now).methods ≤ 2 ^ 32 }
    ensures { IfOk result (λ all. map explained_data all.items ≡ strict_explanations (program_of walk.now.program.now) (rel_of walk.now.sets.now) (A.Assigned.assigned walk.now.assigned.now) (row_at over.now) grounds.now) }
{
    let marks = entry_marks(walk.alloc, walk.program)?;
    let mut all = refused_strictly(walk, over, grounds, marks.as_slice())?;
    let mut behind = entries_behind(walk, over, grounds, marks.as_slice(), all.as_slice())?;
    all.append(&mut behind)?;
    Ok(all)
}

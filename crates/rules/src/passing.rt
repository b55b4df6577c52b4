//! What the methods that override tell those that they override. Where each of the nearest overriding methods passes the
//! paths on that further ones have, these alone are taken: in a line of classes each method has one link then, and not one
//! from each class below.
ghost use Rattle.std.specs.Prelude.{◌≡◌, ◌≤◌, ◌^◌, ◌++◌, true, length, OnOk, slice_get};
ghost use Rattle.core_program.specs.Views.{program_of};
ghost use Rattle.rules.specs.Passing.{is_front, pass_on, row_clauses, row_passes, rows_clauses, rows_pass, HasPassing};

use crate::clauses::{Clause, add_kept};
use crate::nearest::{NearestMethods, nearest_overriders};
use crate::overriding::overriders;
use crate::rows_of_overriding::Overriding;
use crate::search::fields_of;
use core_program::CoreProgram;
use paths::{FieldId, MethodId};
use std::alloc::{AllocError as NoMemory, Global};

/// Adds the clauses of the methods that override: of the nearest, where these pass the paths on, else of all.
pub(crate) fn add_overriding(
    alloc: Global,
    program: &CoreProgram,
    clauses: &mut Vec<Clause>,
) -> Result<(), NoMemory>
    requires { length (program_of program.now).methods ≤ 2 ^ 32 }
    ensures { OnOk result (HasPassing (program_of program.now) clauses.old.items clauses.new.items) }
{
    let near = nearest_overriders(alloc, program)?;
    if do_pass(program, &near) {
        return add_rows(program, &near, clauses);
    }
    let all = overriders(alloc, program)?;
    add_rows(program, &all, clauses)
}

/// Adds the clauses of these rows.
fn add_rows<R: Overriding>(
    program: &CoreProgram,
    over: &R,
    clauses: &mut Vec<Clause>,
) -> Result<(), NoMemory>
    requires { length (program_of program.now).methods ≤ 2 ^ 32 }
    ensures { OnOk result (let P = program_of program.now in
        clauses.new.items ≡ clauses.old.items ++ rows_clauses P (R.rows over.now) 0 (length P.methods)) }
{
    let count = program.methods().len();
    for place in 0..count {
        let method = MethodId(place as u32);
        add_row(program, method, over.row(method), clauses)?;
    }
    Ok(())
}

/// Adds what the overriding methods of a row tell a method.
fn add_row(
    program: &CoreProgram,
    method: MethodId,
    row: &[MethodId],
    clauses: &mut Vec<Clause>,
) -> Result<(), NoMemory>
    ensures { OnOk result (clauses.new.items ≡ clauses.old.items ++ row_clauses (program_of program.now) method row.now) }
{
    for place in 0..row.len() {
        add_kept(program, row[place], method, clauses)?;
    }
    Ok(())
}

/// Whether each method passes on to the nearest that override it what they need for the paths of further ones.
fn do_pass(program: &CoreProgram, near: &NearestMethods) -> bool
    requires { length (program_of program.now).methods ≤ 2 ^ 32 }
    ensures { let P = program_of program.now in result ≡ true → rows_pass P near.now 0 (length P.methods) ≡ true }
{
    let count = program.methods().len();
    for place in 0..count {
        let method = MethodId(place as u32);
        if !row_passes(program, method, near.of(method)) {
            return false;
        }
    }
    true
}

/// Whether a method does so to those of a row.
fn row_passes(program: &CoreProgram, method: MethodId, row: &[MethodId]) -> bool
    ensures { result ≡ row_passes (program_of program.now) method row.now }
{
    for over in row {
        if !pass_on(program, method, *over) {
            return false;
        }
    }
    true
}

/// Whether two methods are there, the second has no more parameters, and its class has the fields of the first one's
/// class before its own.
fn pass_on(program: &CoreProgram, method: MethodId, over: MethodId) -> bool
    ensures { let P = program_of program.now in result ≡ pass_on P (slice_get P.methods method) (slice_get P.methods over) }
{
    let methods = program.methods();
    let Some(first) = methods.get(method.0 as usize) else {
        return false;
    };
    let Some(second) = methods.get(over.0 as usize) else {
        return false;
    };
    second.params.len() <= first.params.len()
        && is_front(
            fields_of(program, first.class),
            fields_of(program, second.class),
        )
}

/// Whether the first list is a front of the second.
fn is_front(fields: &[FieldId], others: &[FieldId]) -> bool
    ensures { result ≡ is_front fields.now others.now }
{
    let mut first = fields;
    let mut second = others;
    'fields: while let Some((x, rest)) = first.split_first() {
        let Some((y, more)) = second.split_first() else {
            return false;
        };
        if *x != *y {
            return false;
        }
        first = rest;
        second = more;
    }
    true
}

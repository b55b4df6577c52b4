//! Methods: their parameters, locks and bodies.
#![tactic(auto, using(crate::proofs::Noting::noted_append))]

ghost use Rattle.std.specs.Prelude.{true, ◌≡◌, ◌<◌, ◌+◌, Some, length, map, flat_map, option_map, slice_get, IfOk, OnOk};
ghost use Rattle.classes.specs.Seen.{ParamData};
ghost use Rattle.classes.specs.Table.{param_of};
ghost use Rattle.classes.specs.Views.{method_data, table_data};
ghost use Rattle.core_program.specs.Views.{method_of, stmt_of};
ghost use Rattle.core_program.specs.Core.{BlockS};
ghost use Rattle.syntax.specs.Views.{lock_of, member_of, stmt_of as tree_of, stmts_from};
ghost use Rattle.typing.specs.Inside.{block_faults_in, block_nodes};
ghost use Rattle.typing.specs.Completion.{locals_in_each, completes_each};
ghost use Rattle.typing.specs.Gathered.{core_method_of, faults_in_method};
ghost use Rattle.typing.specs.Locks.{lock_rule};
ghost use Rattle.typing.specs.Entries.{IsEntryOf};
ghost use Rattle.typing.specs.Making.{method_with, types_in};
ghost use Rattle.typing.specs.Noted.{type_noted};
ghost use Rattle.typing.specs.Programs.{all_there, ascending};
ghost use Rattle.typing.specs.Rulings.{gain, loss, both};
ghost use Rattle.typing.specs.Scopes.{scope_of_parameters};

use crate::body::Body;
use crate::first::FirstFault;
use crate::gather::Gathered;
use crate::lock::lock_path;
use crate::nodes::StmtPart;
use crate::scope::Bound;
use crate::stmt_rules::note_missing_return;
use crate::stmts::block;
use classes::{ClassTable, MethodEntry, ParamEntry};
use core_program::{CoreMethod, CoreType};
use paths::{ClassId, Path};
use std::alloc::{AllocError as NoMemory, Global};
use std::collections::BTreeSet;
use syntax::{Lock, Member, Param, Stmt};

/// The slot after this one. There is no memory for a method with more parameters than slots.
fn next_slot(slot: u16) -> Result<u16, NoMemory>
    ensures { IfOk result (λ n. n ≡ slot + 1) }
{
    match slot.checked_add(1) {
        Some(next) => Ok(next),
        None => Err(NoMemory),
    }
}

/// The type of a parameter by its entry.
fn type_at(entries: &[ParamEntry], place: usize) -> CoreType
    requires { place < length entries.now }
    ensures { (e : ParamData) → slice_get entries.now place ≡ Some e → result ≡ e.ty }
{
    let entry = &entries[place];
    entry.ty
}

/// The parameters of a method, which have these entries in the class table, as they are in scope.
fn parameters<'a>(
    alloc: Global,
    table: &ClassTable,
    params: &[Param<'a>],
    entries: &[ParamEntry],
) -> Result<Vec<Bound<'a>>, NoMemory>
    requires { entries.now ≡ map (param_of (table_data table.now).names) params.now }
    ensures { IfOk result (λ scope. scope.items ≡ scope_of_parameters (table_data table.now) 1 params.now) }
{
    let mut scope = Vec::new(alloc);
    let mut slot = 1;
    for (place, param) in params.iter().enumerate() {
        let bound = Bound {
            name: param.name.text,
            slot,
            is_final: param.is_final,
            ty: type_at(entries, place),
        };
        scope.push(bound)?;
        slot = next_slot(slot)?;
    }
    Ok(scope)
}

/// Of each variable whether it is final, and its type.
fn variable_types(alloc: Global, scope: &[Bound]) -> Result<Vec<(bool, CoreType)>, NoMemory>
    ensures { IfOk result (λ types. types.items ≡ map (λ b. (b.variable.is_final, b.variable.ty)) scope.now) }
{
    let mut types = Vec::new(alloc);
    for bound in scope {
        types.push((bound.is_final, bound.ty))?;
    }
    Ok(types)
}

/// The slot of the first local of a method with these parameters. A class table admits 16 parameters at most; there is no
/// memory for 255 or more.
fn first_local(params: &[Param]) -> Result<u8, NoMemory>
    ensures { IfOk result (λ slot. slot ≡ 1 + length params.now) }
{
    match u8::try_from(1 + params.len()) {
        Ok(slot) => Ok(slot),
        Err(_) => Err(NoMemory),
    }
}

/// How many slots a method has. There is no memory for 65,536 or more.
fn slots(first_local: u8, locals: usize) -> Result<u16, NoMemory>
    ensures { IfOk result (λ count. count ≡ first_local + locals) }
{
    let Ok(locals) = u16::try_from(locals) else {
        return Err(NoMemory);
    };
    match locals.checked_add(first_local as u16) {
        Some(count) => Ok(count),
        None => Err(NoMemory),
    }
}

fn required(
    alloc: Global,
    table: &ClassTable,
    class: ClassId,
    scope: &[Bound],
    locks: &[Lock],
    first: &mut FirstFault,
) -> Result<Option<Vec<Path>>, NoMemory>
    ensures paths { IfOk result (λ paths. option_map (λ v. v.items) paths ≡ all_there (map (λ l. gain (lock_rule (table_data table.now) class scope.now l)) (map lock_of locks.now))) }
    ensures fault { OnOk result (first.new ≡ type_noted first.old (flat_map (λ l. loss (lock_rule (table_data table.now) class scope.now l)) (map lock_of locks.now))) }
{
    let mut paths = Gathered::new(alloc);
    for lock in locks {
        paths.add(lock_path(table, class, scope, lock, first))?;
    }
    Ok(paths.all())
}

/// These paths in ascending order, each once.
fn ascending(alloc: Global, paths: Vec<Path>) -> Result<Vec<Path>, NoMemory>
    ensures { IfOk result (λ all. all.items ≡ ascending paths.items) }
{
    let mut rest = paths;
    let mut set = BTreeSet::new(alloc);
    while let Some(path) = rest.pop() {
        set.insert(path)?;
    }
    set.into_iter().collect(alloc)
}

/// The types of a method's parameters, the locks that it requires, where each is one, and what its body gives.
#[derive(Drop)]
struct MethodParts {
    types: Vec<(bool, CoreType)>,
    locks: Option<Vec<Path>>,
    body: StmtPart,
}

/// The parts of a method with these parameters, which have these entries in the class table.
fn method_parts<'a>(
    body: &Body,
    params: &[Param<'a>],
    entries: &[ParamEntry],
    locks: &[Lock],
    stmts: &[Stmt<'a>],
    first: &mut FirstFault,
) -> Result<MethodParts, NoMemory>
    requires { entries.now ≡ map (param_of (table_data body.now.table.now).names) params.now }
    ensures types { IfOk result (λ made. made.types.items ≡ types_in (table_data body.now.table.now) params.now) }
    ensures locks { IfOk result (λ made. option_map (λ v. v.items) made.locks ≡ all_there (map (λ l. gain (lock_rule (table_data body.now.table.now) body.now.class (scope_of_parameters (table_data body.now.table.now) 1 params.now) l)) (map lock_of locks.now))) }
    ensures node { IfOk result (λ made. option_map stmt_of made.body.node ≡ option_map BlockS (block_nodes body.now (scope_of_parameters (table_data body.now.table.now) 1 params.now) 0 (stmts_from (map tree_of stmts.now)))) }
    ensures locals { IfOk result (λ made. made.body.locals ≡ locals_in_each (stmts_from (map tree_of stmts.now))) }
    ensures completes { IfOk result (λ made. made.body.completes ≡ completes_each (stmts_from (map tree_of stmts.now))) }
    ensures fault { OnOk result (first.new ≡ type_noted (type_noted first.old (flat_map (λ l. loss (lock_rule (table_data body.now.table.now) body.now.class (scope_of_parameters (table_data body.now.table.now) 1 params.now) l)) (map lock_of locks.now))) (block_faults_in body.now (scope_of_parameters (table_data body.now.table.now) 1 params.now) 0 true (stmts_from (map tree_of stmts.now)))) }
{
    let mut scope = parameters(body.alloc, body.table, params, entries)?;
    let locks = required(
        body.alloc,
        body.table,
        body.class,
        scope.as_slice(),
        locks,
        first,
    )?;
    let types = variable_types(body.alloc, scope.as_slice())?;
    let body = block(body, &mut scope, 0, stmts, first)?;
    Ok(MethodParts { types, locks, body })
}

/// The core method of these parts. None where one is missing.
fn core_method(
    body: &Body,
    atomic: bool,
    place_at: u32,
    made: MethodParts,
) -> Result<Option<CoreMethod>, NoMemory>
    ensures { IfOk result (λ m. option_map method_of m ≡ option_map (method_with body.now.class body.now.returns body.now.first_local atomic place_at made.types.items made.body.locals) (both (option_map (λ v. v.items) made.locks) (option_map stmt_of made.body.node))) }
{
    let MethodParts {
        types,
        locks,
        body: part,
    } = made;
    let locals = part.locals;
    let Some(node) = part.node else {
        return Ok(None);
    };
    // Where the node isn't used a call drops it: dropped at an exit, each of its arms is a case of the proof.
    let Some(locks) = locks else {
        drop(node);
        return Ok(None);
    };
    let Ok(requires_) = ascending(body.alloc, locks) else {
        drop(node);
        return Err(NoMemory);
    };
    let Ok(slots) = slots(body.first_local, locals) else {
        drop(node);
        return Err(NoMemory);
    };
    Ok(Some(CoreMethod {
        class: body.class,
        place_at,
        annotated: atomic,
        requires_,
        params: types,
        result: body.returns,
        slots,
        body: node,
    }))
}

/// A method of a class, which has this entry in the class table. None for another member.
pub(crate) fn method(
    alloc: Global,
    table: &ClassTable,
    class: ClassId,
    entry: &MethodEntry,
    member: &Member,
    first: &mut FirstFault,
) -> Result<Option<CoreMethod>, NoMemory>
    requires { IsEntryOf (table_data table.now) class (member_of member.now) (method_data entry.now) }
    ensures node { IfOk result (λ m. option_map method_of m ≡ core_method_of (table_data table.now) class (member_of member.now)) }
    ensures fault { OnOk result (first.new ≡ type_noted first.old (faults_in_method (table_data table.now) class (member_of member.now))) }
{
    let Member::Method {
        atomic,
        result: returns,
        name,
        params,
        requires_,
        body: stmts,
        end: at,
    } = member
    else {
        return Ok(None);
    };
    let params = params.as_slice();
    let body = Body {
        alloc,
        table,
        class,
        returns: entry.returns,
        first_local: first_local(params)?,
    };
    let made = method_parts(
        &body,
        params,
        entry.params.as_slice(),
        requires_.as_slice(),
        stmts.as_slice(),
        first,
    )?;
    note_missing_return(returns.is_some(), made.body.completes, *at, first);
    core_method(&body, *atomic, name.at, made)
}

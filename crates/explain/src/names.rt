//! Names of locks: second names, names at a call, and why an expression has no path.

ghost use Rattle.std.specs.Prelude.{◌≡◌, [], find, slice_get, option_map, IfOk, OnOk};
ghost use Rattle.algebra.specs.HeldPaths.{has_path};
ghost use Rattle.core_program.specs.Locks.{leads_on, path_of};
ghost use Rattle.core_program.specs.Views.{expr_of, exprs_from, program_of, stmt_of, stmts_from};
ghost use Rattle.paths.specs.Renamings.{passed, under_call};
ghost use Rattle.rules.specs.Mentions.{paths_of};
ghost use Rattle.std.specs.List.Sorted.{IsStrictlySortedBy};
ghost use Rattle.std.specs.Option.{option_copied};
ghost use Rattle.paths.specs.Paths.{path_order};
ghost use Rattle.explain.specs.Causes.{ArePaths};
ghost use Rattle.explain.specs.Names.{aliases_after, aliases_after_each, lack_of, meant, names_from, passed_expr, second_name, through_final, with_alias};

use algebra::has;
use core_program::{CoreExpr, CoreProgram, CoreStmt, CoreType, path_of};
use effects::local_name;
use paths::{FieldId, Path, extend};
use std::alloc::{AllocError as NoMemory, Global};
use std::collections::BTreeSet;

/// A final local, and the path that its value's path means.
#[derive(Drop)]
pub struct Alias {
    pub slot: u16,
    pub path: Path,
}

/// Why an expression has no path.
#[derive(Clone, Copy, Debug, PartialEq, Eq)]
pub enum Lack {
    /// The variable isn't final.
    Variable(u16),
    /// The field isn't final, or has no class type.
    Field(FieldId),
    /// There are more than two fields.
    Long,
    /// It is made, or given by a call.
    Value,
}

/// The path of a final local's value, extended by these fields; this path where that is too long.
fn through(start: &Path, path: &Path) -> Path
    ensures { result ≡ through_final start.now path.now }
{
    match extend(start, path.fields.as_slice()) {
        Some(whole) => whole,
        None => path.copy(),
    }
}

/// The path that a path means.
fn meant(aliases: &[Alias], path: &Path) -> Path
    ensures { result ≡ meant aliases.now path.now }
{
    for alias in aliases {
        if alias.slot == path.root {
            return through(&alias.path, path);
        }
    }
    path.copy()
}

/// The first name of a lock from these locals that is held.
fn held_name(aliases: &[Alias], held: &[Path], lock: &Path) -> Option<Path>
    ensures { result ≡ find (has_path held.now) (names_from aliases.now lock.now) }
{
    for alias in aliases {
        if let Some(name) = local_name(alias.slot, &alias.path, lock) {
            if has(held, &name) {
                return Some(name);
            }
        }
    }
    None
}

/// The first other name of a path's lock that is held.
pub(crate) fn second_name(aliases: &[Alias], held: &[Path], path: &Path) -> Option<Path>
    ensures { result ≡ second_name aliases.now (has_path held.now) path.now }
{
    let lock = meant(aliases, path);
    if has(held, &lock) {
        return Some(lock);
    }
    held_name(aliases, held, &lock)
}

/// Adds a final local, where its value has a path.
fn add_alias(
    program: &CoreProgram,
    slot: u16,
    value: &CoreExpr,
    known: &mut Vec<Alias>,
) -> Result<(), NoMemory>
    ensures { OnOk result (known.new.items ≡ with_alias known.old.items slot (path_of (program_of program.now) (expr_of value.now))) }
{
    if let Some(path) = path_of(program, value) {
        let path = meant(known.as_slice(), &path);
        known.push(Alias { slot, path })?;
    }
    Ok(())
}

/// Adds the final locals that a statement declares.
#[cycle(declared)]
fn add_aliases(program: &CoreProgram, s: &CoreStmt, known: &mut Vec<Alias>) -> Result<(), NoMemory>
    ensures { OnOk result (known.new.items ≡ aliases_after (program_of program.now) known.old.items (stmt_of s.now)) }
{
    match s {
        CoreStmt::Local {
            slot,
            is_final: true,
            value,
            ..
        } => add_alias(program, *slot, value, known),
        CoreStmt::Block(body) => add_each(program, body.as_slice(), known),
        CoreStmt::If(_, a, b) => {
            add_aliases(program, a, known)?;
            add_aliases(program, b, known)
        }
        CoreStmt::While(_, a) | CoreStmt::Sync(_, a) => add_aliases(program, a, known),
        CoreStmt::Empty
        | CoreStmt::Local { .. }
        | CoreStmt::SetVar(_, _)
        | CoreStmt::SetField(_, _, _)
        | CoreStmt::Do(_, _)
        | CoreStmt::Return(_)
        | CoreStmt::Print(_)
        | CoreStmt::Start(_) => Ok(()),
    }
}

/// Adds those of the statements of a block.
#[cycle(declared)]
fn add_each(
    program: &CoreProgram,
    body: &[CoreStmt],
    known: &mut Vec<Alias>,
) -> Result<(), NoMemory>
    ensures { OnOk result (known.new.items ≡ aliases_after_each (program_of program.now) known.old.items (stmts_from body.now)) }
{
    for s in body {
        add_aliases(program, s, known)?;
    }
    Ok(())
}

/// The final locals of a body whose values have paths, with what these mean.
pub fn aliases(
    alloc: Global,
    program: &CoreProgram,
    body: &CoreStmt,
) -> Result<Vec<Alias>, NoMemory>
    ensures { IfOk result (λ known. known.items ≡ aliases_after (program_of program.now) [] (stmt_of body.now)) }
{
    let mut known = Vec::new(alloc);
    add_aliases(program, body, &mut known)?;
    Ok(known)
}

/// Whether a path may go on through a field.
fn leads_on(program: &CoreProgram, field: FieldId) -> bool
    ensures { result ≡ leads_on (slice_get (program_of program.now).fields field) }
{
    match program.fields().get(field.0 as usize) {
        Some(f) => f.is_final && matches!(f.ty, CoreType::Class(_)),
        None => false,
    }
}

/// Why no path through an expression is there.
pub(crate) fn lack_of(program: &CoreProgram, e: &CoreExpr) -> Lack
    ensures { result ≡ lack_of (program_of program.now) (expr_of e.now) }
{
    match e {
        CoreExpr::Var {
            slot,
            is_final: false,
            ..
        } => Lack::Variable(*slot),
        CoreExpr::This | CoreExpr::Var { .. } => Lack::Long,
        CoreExpr::Get(receiver, field) => {
            if leads_on(program, *field) {
                lack_of(program, receiver)
            } else {
                Lack::Field(*field)
            }
        }
        _ => Lack::Value,
    }
}

/// The argument at a place.
fn argument(args: &[CoreExpr], place: usize) -> Option<&CoreExpr>
    ensures { option_copied result ≡ slice_get args.now place }
{
    args.get(place)
}

/// What stands for a callee's slot at a call, where there is such a thing.
pub(crate) fn passed_expr<'e>(
    receiver: &'e CoreExpr,
    args: &'e [CoreExpr],
    slot: u16,
) -> Option<&'e CoreExpr>
    ensures { option_map expr_of (option_copied result) ≡ passed_expr (expr_of receiver.now) (exprs_from args.now) slot }
{
    if slot == 0 {
        return Some(receiver);
    }
    argument(args, slot as usize - 1)
}

/// The path of what stands for a callee's slot at a call.
fn passed(program: &CoreProgram, receiver: &CoreExpr, args: &[CoreExpr], root: u16) -> Option<Path>
    ensures { let P = program_of program.now in result ≡ passed (path_of P (expr_of receiver.now)) (paths_of P (exprs_from args.now)) root }
{
    path_of(program, passed_expr(receiver, args, root)?)
}

/// What a path of a callee is called at a call on this receiver with these arguments.
pub(crate) fn name_at_call(
    program: &CoreProgram,
    receiver: &CoreExpr,
    args: &[CoreExpr],
    path: &Path,
) -> Option<Path>
    ensures { let P = program_of program.now in result ≡ under_call (path_of P (expr_of receiver.now)) (paths_of P (exprs_from args.now)) path.now }
{
    let start = passed(program, receiver, args, path.root)?;
    extend(&start, path.fields.as_slice())
}

/// The set of the paths of a list.
fn path_set(alloc: Global, held: &[Path]) -> Result<BTreeSet<Path>, NoMemory>
    ensures ascends { IfOk result (λ set. IsStrictlySortedBy path_order set.keys) }
    ensures same { IfOk result (λ set. has_path set.keys ≡ has_path held.now) }
{
    let mut set = BTreeSet::new(alloc);
    for path in held {
        set.insert(path.copy())?;
    }
    Ok(set)
}

/// The paths of a set, in its order.
fn listed(alloc: Global, set: BTreeSet<Path>) -> Result<Vec<Path>, NoMemory>
    ensures { IfOk result (λ paths. paths.items ≡ set.keys) }
{
    set.into_iter().collect(alloc)
}

/// The paths of a list, ascending, each once.
pub fn ascending(alloc: Global, held: &[Path]) -> Result<Vec<Path>, NoMemory>
    ensures { IfOk result (λ paths. ArePaths (has_path held.now) paths.items) }
{
    let set = path_set(alloc, held)?;
    listed(alloc, set)
}

//! Trees under other names: before a final local is declared, and at a call.
ghost use Rattle.std.specs.Prelude.{◌≡◌, ◌++◌, IfErr, IfOk, if◌then◌else◌};
ghost use Rattle.std.specs.List.{list_all};
ghost use Rattle.std.specs.Option.{option_copied};
ghost use Rattle.algebra.specs.declared.basic.Basic.TheVariants.{Error};
ghost use Rattle.algebra.specs.HeldPaths.{Held, has_path};
ghost use Rattle.conditions.specs.Conditions.{cond_of, value_of, IsCanonical};
ghost use Rattle.core_program.specs.Views.{program_of, stmt_of};
ghost use Rattle.rules.specs.Effect.{after_stmt};
ghost use Rattle.rules.specs.Rules.{held_in};
ghost use Rattle.book_check.specs.declared.refusal.Refusal.{Refusal};
ghost use Rattle.book_check.specs.Works.{IsUnbounded};
ghost use Rattle.book_check.specs.Conclusions.{tests_only as tests_only_of};
ghost use Rattle.book_check.specs.Judges.{call_name as call_name_of, name_before_local as local_name_of, named_set, own_name as own_name_of};

use crate::refusal::Refusal;
use crate::values::{held_or, leaf};
use crate::work::Work;
use algebra::{Basic, has};
use conditions::Tree;
use core_program::{CoreProgram, CoreStmt, path_of};
use paths::{Path, extend, under_call};
use std::alloc::Global;

/// What a path was called before the final local with this slot was declared.
fn local_name(slot: u16, value: Option<&Path>, path: &Path) -> Option<Path>
    ensures { result ≡ local_name_of slot (option_copied value.entry) path.now }
{
    if path.root == slot {
        extend(value?, path.fields.as_slice())
    } else {
        Some(path.copy())
    }
}

/// The value of a tree before the final local with this slot was declared.
fn before_local(
    alloc: Global,
    work: Work<'_>,
    slot: u16,
    value: Option<&Path>,
    t: &Tree,
) -> Result<Tree, Refusal>
    ensures known { IfOk result (λ r. IsCanonical (cond_of r)) }
    ensures value { IfOk result (λ r. (H : Held) →
        value_of (cond_of r) H ≡ value_of (cond_of t.now) (named_set (local_name_of slot (option_copied value.entry)) H)) }
    ensures unbounded { IsUnbounded work.entry → IfErr result (λ e. e ≡ Refusal.NoMemory) }
{
    match t {
        Tree::Leaf(basic) => Ok(leaf(*basic)),
        Tree::Test(path, a, b) => {
            let held = before_local(alloc, work, slot, value, a)?;
            let free = before_local(alloc, work, slot, value, b)?;
            let name = local_name(slot, value, path);
            held_or(alloc, work, name.as_ref(), &held, &free)
        }
    }
}

/// The value of the rest of a block before a statement.
#[tactic(auto, using(crate::proofs::NameLemmas::local_value))]
pub(crate) fn before(
    alloc: Global,
    work: Work<'_>,
    program: &CoreProgram,
    s: &CoreStmt,
    rest: Tree,
) -> Result<Tree, Refusal>
    requires { IsCanonical (cond_of rest) }
    ensures known { IfOk result (λ r. IsCanonical (cond_of r)) }
    ensures value { IfOk result (λ r. (H : Held) →
        value_of (cond_of r) H ≡ value_of (cond_of rest) (after_stmt (program_of program.now) (stmt_of s.now) H)) }
    ensures unbounded { IsUnbounded work.entry → IfErr result (λ e. e ≡ Refusal.NoMemory) }
{
    let CoreStmt::Local {
        slot,
        is_final: true,
        value,
        ..
    } = s
    else {
        return Ok(rest);
    };
    let path = path_of(program, value);
    before_local(alloc, work, *slot, path.as_ref(), &rest)
}

/// Whether one of the lists has the path.
fn holds_either(paths: &[Path], others: &[Path], path: &Path) -> bool
    ensures { result ≡ has_path (paths.now ++ others.now) path.now }
{
    has(paths, path) || has(others, path)
}

/// Whether each test of a tree is on one of these paths.
pub fn tests_only(paths: &[Path], t: &Tree) -> bool
    ensures { result ≡ tests_only_of paths.now (cond_of t.now) }
{
    match t {
        Tree::Leaf(_) => true,
        Tree::Test(path, a, b) => {
            has(paths, path) && (tests_only(paths, a) && tests_only(paths, b))
        }
    }
}

/// Whether each test of a tree is on a path of one of these lists.
pub fn tests_either(paths: &[Path], others: &[Path], t: &Tree) -> bool
    ensures { result ≡ tests_only_of (paths.now ++ others.now) (cond_of t.now) }
{
    match t {
        Tree::Leaf(_) => true,
        Tree::Test(path, a, b) => {
            holds_either(paths, others, path)
                && (tests_either(paths, others, a) && tests_either(paths, others, b))
        }
    }
}

/// A path under its own name, where it is among these.
fn own_name(paths: &[Path], path: &Path) -> Option<Path>
    ensures { result ≡ own_name_of paths.now path.now }
{
    if has(paths, path) {
        Some(path.copy())
    } else {
        None
    }
}

/// The value of a tree where no path counts as held but these; what stands where another one is held isn't looked at.
fn among(alloc: Global, work: Work<'_>, paths: &[Path], t: &Tree) -> Result<Tree, Refusal>
    ensures known { IfOk result (λ r. IsCanonical (cond_of r)) }
    ensures value { IfOk result (λ r. (H : Held) →
        value_of (cond_of r) H ≡ value_of (cond_of t.now) (named_set (own_name_of paths.now) H)) }
    ensures unbounded { IsUnbounded work.entry → IfErr result (λ e. e ≡ Refusal.NoMemory) }
{
    match t {
        Tree::Leaf(basic) => Ok(leaf(*basic)),
        Tree::Test(path, a, b) => {
            let Some(name) = own_name(paths, path) else {
                return among(alloc, work, paths, b);
            };
            let held = among(alloc, work, paths, a)?;
            let free = among(alloc, work, paths, b)?;
            held_or(alloc, work, Some(&name), &held, &free)
        }
    }
}

/// The value of a tree at those of the held paths that are among these.
#[tactic(auto, using(crate::proofs::NameLemmas::own_value))]
pub fn within(alloc: Global, work: Work<'_>, paths: &[Path], t: &Tree) -> Result<Tree, Refusal>
    ensures known { IfOk result (λ r. IsCanonical (cond_of r)) }
    ensures value { IfOk result (λ r. (H : Held) → value_of (cond_of r) H ≡ value_of (cond_of t.now) (held_in paths.now H)) }
    ensures unbounded { IsUnbounded work.entry → IfErr result (λ e. e ≡ Refusal.NoMemory) }
{
    among(alloc, work, paths, t)
}

/// What a callee's path is called here, where it is relevant.
pub fn call_name(
    rel: &[Path],
    receiver: Option<&Path>,
    args: &[Option<Path>],
    path: &Path,
) -> Option<Path>
    ensures { result ≡ call_name_of rel.now (option_copied receiver.entry) args.now path.now }
{
    if has(rel, path) {
        under_call(path, receiver, args)
    } else {
        None
    }
}

/// The value of a callee's tree at the set that the callee begins with. A path that has no name here counts as not held, so that what
/// stands where it is held isn't looked at.
pub(crate) fn at_call(
    alloc: Global,
    work: Work<'_>,
    rel: &[Path],
    receiver: Option<&Path>,
    args: &[Option<Path>],
    t: &Tree,
) -> Result<Tree, Refusal>
    ensures known { IfOk result (λ r. IsCanonical (cond_of r)) }
    ensures value { IfOk result (λ r. (H : Held) →
        value_of (cond_of r) H ≡ value_of (cond_of t.now) (named_set (call_name_of rel.now (option_copied receiver.entry) args.now) H)) }
    ensures unbounded { IsUnbounded work.entry → IfErr result (λ e. e ≡ Refusal.NoMemory) }
{
    match t {
        Tree::Leaf(basic) => Ok(leaf(*basic)),
        Tree::Test(path, a, b) => {
            let Some(name) = call_name(rel, receiver, args, path) else {
                return at_call(alloc, work, rel, receiver, args, b);
            };
            let held = at_call(alloc, work, rel, receiver, args, a)?;
            let free = at_call(alloc, work, rel, receiver, args, b)?;
            held_or(alloc, work, Some(&name), &held, &free)
        }
    }
}

/// What a callee's paths are called at a call: they are relevant to it, and begin at the receiver or an argument.
#[derive(Clone, Copy)]
pub(crate) struct CallNames<'a> {
    pub(crate) rel: &'a [Path],
    pub(crate) receiver: Option<&'a Path>,
    pub(crate) args: &'a [Option<Path>],
}

/// The value where each of a callee's required paths has a name here and is held, else error.
pub(crate) fn with_required(
    alloc: Global,
    work: Work<'_>,
    names: &CallNames<'_>,
    required: &[Path],
    value: Tree,
) -> Result<Tree, Refusal>
    requires { IsCanonical (cond_of value) }
    ensures known { IfOk result (λ r. IsCanonical (cond_of r)) }
    ensures value { IfOk result (λ r. (H : Held) → value_of (cond_of r) H ≡
        (if list_all (named_set (call_name_of names.now.rel.now (option_copied names.now.receiver) names.now.args.now) H) required.now
        then value_of (cond_of value) H else Error)) }
    ensures unbounded { IsUnbounded work.entry → IfErr result (λ e. e ≡ Refusal.NoMemory) }
{
    let Some((path, rest)) = required.split_first() else {
        return Ok(value);
    };
    let later = with_required(alloc, work, names, rest, value)?;
    let name = call_name(names.rel, names.receiver, names.args, path);
    let error = leaf(Basic::Error);
    held_or(alloc, work, name.as_ref(), &later, &error)
}

/// The value where each of these paths is held, else error.
pub fn where_held(
    alloc: Global,
    work: Work<'_>,
    required: &[Path],
    value: Tree,
) -> Result<Tree, Refusal>
    requires { IsCanonical (cond_of value) }
    ensures known { IfOk result (λ r. IsCanonical (cond_of r)) }
    ensures value { IfOk result (λ r. (H : Held) → value_of (cond_of r) H ≡
        (if list_all H required.now then value_of (cond_of value) H else Error)) }
    ensures unbounded { IsUnbounded work.entry → IfErr result (λ e. e ≡ Refusal.NoMemory) }
{
    let Some((path, rest)) = required.split_first() else {
        return Ok(value);
    };
    let later = where_held(alloc, work, rest, value)?;
    let error = leaf(Basic::Error);
    held_or(alloc, work, Some(path), &later, &error)
}

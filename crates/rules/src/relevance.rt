//! The relevant paths of every method of a program.
ghost use Rattle.std.specs.Prelude.{◌≡◌, ◌≤◌, ◌<◌, ◌^◌, ◌⊎◌, ℕ, false, true, length, filter, nat_le, nat_lt, IfOk, IfErr, IfSome, IfNone, IsErrOf, MatchResult};
ghost use Rattle.core_program.specs.Views.{program_of};
ghost use Rattle.rules.specs.Near.{AreRelevant, AreFew, IsWellFormed};
ghost use Rattle.rules.specs.Search.{rows_of};
ghost use Rattle.rules.specs.Limits.{IsFirstCrowded, is_crowded, parted_from};

use crate::clauses::program_clauses;
use crate::search::{near_paths, row};
use crate::sets::{PartedPaths, PathsOfMethod, RelevantSets};
use core_program::CoreProgram;
use paths::{MethodId, Path};
use std::alloc::{AllocError, AllocError as NoMemory, Global};

/// How many relevant paths a method has at most, and how many local ones.
const MOST_LOCKS: usize = 8;

/// Why a program has no relevant sets.
#[derive(Clone, Copy, Debug, PartialEq, Eq)]
pub enum RuleEnd {
    /// The method is the first in the source with more than 8 relevant paths or more than 8 local ones.
    TooManyLocks { method: MethodId },
    /// There was no memory for the sets.
    NoMemory,
}

impl From<AllocError> for RuleEnd {
    ghost use Rattle.std.specs.Prelude.{◌≡◌};
    ghost use Rattle.rules.specs.declared.relevance.RuleEnd.TheVariants as ends;

    ghost from_gives = { λ _ end. end ≡ ends.NoMemory };

    fn from(_: AllocError) -> Self {
        RuleEnd::NoMemory
    }
}

/// The least family of near paths, after Flanagan and Qadeer (2003): by method the paths rooted at `this` or a
/// parameter, and those rooted at its locals.
///
/// The bodies are read once, into facts and links from method to method, and so are the pairs of the classes, for the
/// methods that override. Then each path of a method is followed once
/// along the links of that method. So the time is the size of the program, and the sum over the methods of their paths
/// times the calls of them and their final locals, each with the search for a path among those of a method. The sets
/// are not cut off at the limit, since which of a method's paths have a name at a call decides who is the first past it.
pub fn relevant(alloc: Global, program: &CoreProgram) -> Result<RelevantSets, RuleEnd>
    requires { length (program_of program.now).methods ≤ 2 ^ 32 }

    // Each answer is right of the program.
    ensures sets { IfOk result (λ sets. AreRelevant (program_of program.now) sets) }
    ensures few { IfOk result (λ sets. AreFew sets) }
    ensures crowded { (m : ℕ) → IsErrOf result (RuleEnd.TooManyLocks m) → IsFirstCrowded (program_of program.now) m }

    // The right one is given where there is memory.
    ensures well_formed { IsWellFormed (program_of program.now) → IfErr result (λ end. end ≡ RuleEnd.NoMemory) }
    ensures first { (m : ℕ) → IsFirstCrowded (program_of program.now) m → MatchResult result (λ _. ⊥)
        (λ end. (end ≡ RuleEnd.TooManyLocks m) ⊎ (end ≡ RuleEnd.NoMemory)) }
{
    let sets = sets_of(alloc, program)?;
    match first_crowded(&sets, program.methods().len()) {
        Some(method) => Err(RuleEnd::TooManyLocks { method }),
        None => Ok(RelevantSets { paths: sets }),
    }
}

/// The relevant sets, however large.
fn sets_of(alloc: Global, program: &CoreProgram) -> Result<PartedPaths, NoMemory>
    requires { length (program_of program.now).methods ≤ 2 ^ 32 }
    ensures { IfOk result (λ sets. AreRelevant (program_of program.now) sets) }
{
    let clauses = program_clauses(alloc, program)?;
    let near = near_paths(alloc, program, clauses.as_slice())?;
    parted_sets(alloc, program, near.as_slice())
}

/// The near paths of all methods, by their roots.
fn parted_sets(
    alloc: Global,
    program: &CoreProgram,
    near: &[Vec<Path>],
) -> Result<PartedPaths, NoMemory>
    ensures { IfOk result (λ sets. sets ≡ parted_from (rows_of near.now) 0 (program_of program.now).methods) }
{
    let mut sets = Vec::new(alloc);
    let methods = program.methods();
    for place in 0..methods.len() {
        let params = methods[place].params.len();
        sets.push(parted(alloc, params, row(near, place))?)?;
    }
    Ok(PartedPaths { methods: sets })
}

/// The near paths of a method with so many parameters, by their roots.
fn parted(alloc: Global, params: usize, near: &[Path]) -> Result<PathsOfMethod, NoMemory>
    ensures rel { IfOk result (λ paths. paths.rel.items ≡ filter (λ p. nat_le p.root params) near.now) }
    ensures loc { IfOk result (λ paths. paths.loc.items ≡ filter (λ p. nat_lt params p.root) near.now) }
{
    Ok(PathsOfMethod {
        rel: outer_paths(alloc, params, near)?,
        loc: inner_paths(alloc, params, near)?,
    })
}

/// The paths rooted at `this` or a parameter.
fn outer_paths(alloc: Global, params: usize, near: &[Path]) -> Result<Vec<Path>, NoMemory>
    ensures { IfOk result (λ paths. paths.items ≡ filter (λ p. nat_le p.root params) near.now) }
{
    let mut paths = Vec::new(alloc);
    for path in near {
        if path.root as usize <= params {
            paths.push(path.copy())?;
        }
    }
    Ok(paths)
}

/// The paths rooted at a local.
fn inner_paths(alloc: Global, params: usize, near: &[Path]) -> Result<Vec<Path>, NoMemory>
    ensures { IfOk result (λ paths. paths.items ≡ filter (λ p. nat_lt params p.root) near.now) }
{
    let mut paths = Vec::new(alloc);
    for path in near {
        if params < path.root as usize {
            paths.push(path.copy())?;
        }
    }
    Ok(paths)
}

/// The first of so many methods that is past the limit.
fn first_crowded(sets: &PartedPaths, count: usize) -> Option<MethodId>
    requires { count ≤ 2 ^ 32 }
    ensures crowded { IfSome result (λ m. (m < count) × (is_crowded sets.now m ≡ true)) }
    ensures before { IfSome result (λ m. (k : ℕ) → k < m → is_crowded sets.now k ≡ false) }
    ensures none { IfNone result ((k : ℕ) → k < count → is_crowded sets.now k ≡ false) }
{
    for place in 0..count {
        let method = MethodId(place as u32);
        if is_crowded(sets, method) {
            return Some(method);
        }
    }
    None
}

fn is_crowded(sets: &PartedPaths, method: MethodId) -> bool
    ensures { result ≡ is_crowded sets.now method }
{
    MOST_LOCKS < sets.rel(method).len() || MOST_LOCKS < sets.loc(method).len()
}

//! The rules of the family of near paths, as the bodies of a program have them.
ghost use Rattle.std.specs.Prelude.{◌≡◌, ◌≤◌, ◌^◌, ◌++◌, length, OnOk, IfOk, slice_get};
ghost use Rattle.core_program.specs.Views.{program_of};
ghost use Rattle.rules.specs.Clauses.{params_of, method_class, kept_clauses};
ghost use Rattle.rules.specs.Passing.{GiveNear};

use crate::body_clauses::clauses_of;
use crate::passing::add_overriding;
use core_program::CoreProgram;
use paths::{ClassId, MethodId, Path};
use std::alloc::{AllocError as NoMemory, Global};

/// A path near a method.
#[derive(Drop)]
pub(crate) struct NearPath {
    pub(crate) method: MethodId,
    pub(crate) path: Path,
}

/// How the paths of one method become paths of another.
#[derive(Drop)]
pub(crate) enum Way {
    /// The path is what this slot stands for: what a call passes for it, or the value of a final local, where both
    /// methods are the same.
    Passed { root: usize, start: Path },
    /// From a method with so many parameters to one of this class that it overrides: its relevant paths stay as they
    /// are, where the class has the first field of a path of `this`.
    Kept { params: usize, class: ClassId },
}

/// On this way paths of the method `from` become paths of the method `to`.
#[derive(Drop)]
pub(crate) struct Link {
    pub(crate) from: MethodId,
    pub(crate) to: MethodId,
    pub(crate) way: Way,
}

impl NearPath {
    /// The same place once more.
    pub(crate) fn copy(&self) -> NearPath
        ensures { result ≡ self.now }
    {
        NearPath {
            method: self.method,
            path: self.path.copy(),
        }
    }
}

impl Way {
    fn copy(&self) -> Way
        ensures { result ≡ self.now }
    {
        match self {
            Way::Passed { root, start } => Way::Passed {
                root: *root,
                start: start.copy(),
            },
            Way::Kept { params, class } => Way::Kept {
                params: *params,
                class: *class,
            },
        }
    }
}

impl Link {
    /// The same link once more.
    pub(crate) fn copy(&self) -> Link
        ensures { result ≡ self.now }
    {
        Link {
            from: self.from,
            to: self.to,
            way: self.way.copy(),
        }
    }
}

/// A path that is near a method by itself, or a link that leads from near paths to near paths.
#[derive(Drop)]
pub(crate) enum Clause {
    Fact(NearPath),
    Leads(Link),
}

/// The clauses of a program: those of its methods, and those of the methods that override.
pub(crate) fn program_clauses(alloc: Global, program: &CoreProgram) -> Result<Vec<Clause>, NoMemory>
    requires { length (program_of program.now).methods ≤ 2 ^ 32 }
    ensures { IfOk result (λ clauses. GiveNear (program_of program.now) clauses.items) }
{
    let mut clauses = clauses_of(alloc, program)?;
    add_overriding(alloc, program, &mut clauses)?;
    Ok(clauses)
}

/// The class of a method, where it is there.
pub(crate) fn class_of(program: &CoreProgram, method: MethodId) -> Option<ClassId>
    ensures { result ≡ method_class (slice_get (program_of program.now).methods method) }
{
    Some(program.methods().get(method.0 as usize)?.class)
}

/// What an overriding method tells the one that it overrides, where both are there.
pub(crate) fn add_kept(
    program: &CoreProgram,
    over: MethodId,
    method: MethodId,
    clauses: &mut Vec<Clause>,
) -> Result<(), NoMemory>
    ensures { OnOk result (let P = program_of program.now in clauses.new.items ≡
        clauses.old.items ++ kept_clauses over method (params_of (slice_get P.methods over)) (method_class (slice_get P.methods method))) }
{
    let Some(params) = params_of(program, over) else {
        return Ok(());
    };
    let Some(class) = class_of(program, method) else {
        return Ok(());
    };
    clauses.push(Clause::Leads(Link {
        from: over,
        to: method,
        way: Way::Kept { params, class },
    }))?;
    Ok(())
}

/// How many parameters a method has, where it is there.
pub(crate) fn params_of(program: &CoreProgram, method: MethodId) -> Option<usize>
    ensures { result ≡ params_of (slice_get (program_of program.now).methods method) }
{
    match program.methods().get(method.0 as usize) {
        None => None,
        Some(method) => Some(method.params.len()),
    }
}

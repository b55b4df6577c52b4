//! Which method runs for a call, with what was found before.
ghost use Rattle.std.specs.Prelude.{◌≡◌, Some, slice_get};
ghost use Rattle.core_program.specs.Dispatch.{target_of};
ghost use Rattle.core_program.specs.Views.{program_of};
ghost use Rattle.machine.specs.Upwards.{look_tells};

use crate::upwards::{Look, pass, runs_below};
use crate::weights::{CHEAP, copied, dear_weights, is_boundary};
use core_program::CoreProgram;
use indexmap::IndexMap;
use paths::{ClassId, MethodId};
use std::alloc::Global;
use std::marker::Model;

/// A program, and what was found of its calls, which is kept where looks may be dear: then there are weights.
/// A contract sees the program.
#[derive(Drop)]
pub struct Targets<'p> {
    program: &'p CoreProgram,
    weights: Vec<usize>,
    found: IndexMap<(ClassId, MethodId), MethodId>,
}

impl<'p> Model for Targets<'p> {
    ghost use Rattle.std.specs.Coded.{codes};
    ghost use Rattle.core_program.specs.contracts.tree.CoreStmt as statement;
    ghost use Rattle.core_program.specs.declared.program.CoreProgram.{CoreProgram};
    ghost use Rattle.core_program.specs.Views.{program_of};
    ghost use Rattle.machine.specs.Targets.{AreFound};

    ghost Value = { CoreProgram };

    ghost coded = { Prim.hlevel (codes, statement.the_row.coded) };

    ghost view = { λ t. t.program.now };

    ghost invariant = { λ t. AreFound (program_of t.program.now) t.found.entries };
}

impl<'p> Targets<'p> {
    /// Nothing was found of a program.
    pub fn new(alloc: Global, program: &'p CoreProgram) -> Targets<'p>
        ensures { result ≡ program.now }
    {
        Targets {
            program,
            weights: dear_weights(alloc, program.classes()),
            found: IndexMap::new(alloc),
        }
    }

    /// Nothing was found of the same program.
    pub(crate) fn afresh(&self, alloc: Global) -> Targets<'p>
        ensures { result ≡ self.now }
    {
        Targets {
            program: self.program,
            weights: copied(alloc, self.weights.as_slice()),
            found: IndexMap::new(alloc),
        }
    }

    /// The program.
    pub fn program(&self) -> &'p CoreProgram
        ensures { result.now ≡ self.now }
    {
        self.program
    }

    /// Whether what is found is kept: some look is dear.
    pub(crate) fn is_deep(&self) -> bool {
        !self.weights.is_empty()
    }

    /// The method that runs for a method and an object of a class; `None` exactly where the class has no pair of that method.
    pub fn target(&self, class: ClassId, method: MethodId) -> Option<MethodId>
        ensures { result ≡ target_of (program_of self.now) class method }
    {
        if self.is_deep() {
            if let Some(runs) = self.found.get(&(class, method)) {
                return Some(*runs);
            }
        }
        self.program.target(class, method)
    }

    /// Keeps which method runs for a method and an object of a class, where there is one and memory for it.
    pub(crate) fn keep(&mut self, class: ClassId, method: MethodId)
        ensures { self.new ≡ self.old }
    {
        if let Some(name) = self.program.name_of(method) {
            let parts = self.weights.len().saturating_add(self.program.names.len());
            let _ = self.known(class, method, name, parts / CHEAP + 2);
        }
    }

    /// What runs for a method with this name and an object of a class. It is kept for the class, and for those above it at
    /// which a look ends. At most so many of these are asked in turn.
    fn known(
        &mut self,
        class: ClassId,
        method: MethodId,
        name: u32,
        left: usize,
    ) -> Option<MethodId>
        requires { slice_get self.old.names.items method ≡ Some name }
        ensures same { self.new ≡ self.old }
        ensures runs { result ≡ target_of (program_of self.old) class method }
    {
        if left == 0 {
            return self.program.target(class, method);
        }
        if let Some(runs) = self.found.get(&(class, method)) {
            return Some(*runs);
        }
        match self.look(class, method, name) {
            Look::Ends(runs) => self.kept(class, method, runs),
            Look::GoesOn(above, nearest) => {
                let runs = runs_below(nearest, self.known(above, method, name, left - 1));
                self.kept(class, method, runs)
            }
        }
    }

    /// A look from a class up to the next one at which looks end.
    fn look(&self, class: ClassId, method: MethodId, name: u32) -> Look
        requires { slice_get self.now.names.items method ≡ Some name }
        ensures { look_tells (program_of self.now) method result ≡ target_of (program_of self.now) class method }
    {
        let mut at = class;
        let mut nearest = None;
        'classes: for _ in 0..CHEAP {
            match pass(self.program, at, nearest, method, name) {
                Look::Ends(runs) => return Look::Ends(runs),
                Look::GoesOn(above, passed) => {
                    if is_boundary(self.weights.as_slice(), at, above) {
                        return Look::GoesOn(above, passed);
                    }
                    at = above;
                    nearest = passed;
                }
            }
        }
        Look::GoesOn(at, nearest)
    }

    /// Keeps what runs for a method and an object of a class, where anything does and there is memory for it.
    fn kept(&mut self, class: ClassId, method: MethodId, runs: Option<MethodId>) -> Option<MethodId>
        requires { runs ≡ target_of (program_of self.old) class method }
        ensures same { self.new ≡ self.old }
        ensures runs { result ≡ runs }
    {
        let Some(found) = runs else { return None };
        let _ = self.found.insert((class, method), found);
        Some(found)
    }
}

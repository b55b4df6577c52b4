//! Trees as an algebra each of whose operations is charged to some work, and the judge of a book as the context of a part. Whoever uses
//! an algebra knows no refusal but want of memory, so that work that ends is told as that.
ghost use Rattle.std.specs.Prelude.{◌≡◌};
ghost use Rattle.core_program.specs.Views.{program_of};
ghost use Rattle.rules.specs.Effect.{after_stmt, call_of};
ghost use Rattle.book_check.specs.Charges.{known_value, IsKnownTree};
ghost use Rattle.book_check.specs.Judges.{judge_assignment, judge_program, judge_rel, judge_table, AreCanonical};

use crate::judge::Judge;
use crate::names::before;
use crate::rule_values::call;
use crate::values::{held_or, join, leaf, renamed, seq, star, sync};
use crate::work::Work;
use algebra::{Algebra, Basic};
use conditions::{Tree, Trees};
use core_program::{CoreExpr, CoreProgram, CoreStmt};
use effects::Context;
use paths::{MethodId, Path, Renaming};
use std::alloc::{AllocError as NoMemory, Global};

/// The algebra of trees within some work. It knows every canonical tree.
#[derive(Clone, Copy)]
pub(crate) struct Charged<'a> {
    pub(crate) work: Work<'a>,
}

impl<'a> Algebra for Charged<'a> {
    type A = Tree;

    ghost IsKnown = { IsKnownTree };

    ghost value = { known_value };

    fn leaf(&mut self, _alloc: Global, b: Basic) -> Result<Tree, NoMemory> {
        Ok(leaf(b))
    }

    fn held_or(&mut self, alloc: Global, p: &Path, a: &Tree, b: &Tree) -> Result<Tree, NoMemory> {
        Ok(held_or(alloc, self.work, Some(p), a, b)?)
    }

    fn seq(&mut self, alloc: Global, a: &Tree, b: &Tree) -> Result<Tree, NoMemory> {
        Ok(seq(alloc, self.work, a, b)?)
    }

    fn join(&mut self, alloc: Global, a: &Tree, b: &Tree) -> Result<Tree, NoMemory> {
        Ok(join(alloc, self.work, a, b)?)
    }

    fn star(&mut self, alloc: Global, a: &Tree) -> Result<Tree, NoMemory> {
        Ok(star(alloc, self.work, a)?)
    }

    fn sync(&mut self, alloc: Global, p: &Path, a: &Tree) -> Result<Tree, NoMemory> {
        Ok(sync(alloc, self.work, p, a)?)
    }

    fn rename(&mut self, alloc: Global, map: &Renaming, a: &Tree) -> Result<Tree, NoMemory> {
        Ok(renamed(alloc, self.work, map, a)?)
    }

    fn below(&self, a: &Tree, b: &Tree) -> bool {
        Trees.below(a, b)
    }

    fn at(&self, a: &Tree, held: &[Path]) -> Basic {
        Trees.at(a, held)
    }
}

impl<'a, 'b> Context<Charged<'b>> for Judge<'a> {
    ghost IsReady = { λ s. AreCanonical (judge_table s) };

    ghost plain = { λ s. judge_program s };

    ghost called = { λ s. call_of (judge_program s) (judge_rel s) (judge_assignment s) };

    ghost after = { λ s. after_stmt (judge_program s) };

    fn program(&self) -> &CoreProgram
        ensures { program_of result.now ≡ judge_program self.now }
    {
        self.program
    }

    fn call_value(
        &self,
        alloc: Global,
        trees: &mut Charged<'b>,
        receiver: &CoreExpr,
        callee: MethodId,
        args: &[CoreExpr],
    ) -> Result<Tree, NoMemory> {
        Ok(call(alloc, trees.work, self, callee, receiver, args)?)
    }

    fn before(
        &self,
        alloc: Global,
        trees: &mut Charged<'b>,
        s: &CoreStmt,
        rest: Tree,
    ) -> Result<Tree, NoMemory> {
        Ok(before(alloc, trees.work, self.program, s, rest)?)
    }
}

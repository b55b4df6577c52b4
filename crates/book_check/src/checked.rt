//! Checked programs.
ghost use Rattle.std.specs.Prelude.{◌≡◌};
ghost use Rattle.core_program.specs.Views.{program_of};
ghost use Rattle.book_check.specs.Checks.{IsChecked};

use core_program::CoreProgram;
use rules::RelevantSets;
use std::marker::Model;

/// A typed program with its relevant sets, for which a good book was seen: so it is accepted. Only the calls of this crate that
/// judge a book make one.
#[derive(Drop)]
pub struct Checked {
    pub(crate) program: CoreProgram,
    pub(crate) sets: RelevantSets,
}

impl Model for Checked {
    ghost use Rattle.std.specs.Prelude.{List};
    ghost use Rattle.std.specs.Coded.{codes};
    ghost use Rattle.core_program.specs.declared.program.CoreProgram.{CoreProgram};
    ghost use Rattle.core_program.specs.contracts.tree.CoreStmt as statement;
    ghost use Rattle.core_program.specs.Views.{program_of};
    ghost use Rattle.rules.specs.Near.{MethodPaths};

    ghost Value = { CoreProgram × List MethodPaths };

    ghost coded = { Prim.hlevel (codes, statement.the_row.coded) };

    ghost use Rattle.book_check.specs.Checks.{IsChecked};

    ghost view = { λ c. (c.program, c.sets) };

    ghost invariant = { λ c. IsChecked (program_of c.program) c.sets };
}

impl Checked {
    /// The program.
    pub fn program(&self) -> &CoreProgram
        ensures program { result.now ≡ self.now.0 }
        ensures checked { IsChecked (program_of self.now.0) self.now.1 }
    {
        &self.program
    }

    /// Its relevant sets.
    pub fn sets(&self) -> &RelevantSets
        ensures sets { result.now ≡ self.now.1 }
        ensures checked { IsChecked (program_of self.now.0) self.now.1 }
    {
        &self.sets
    }
}

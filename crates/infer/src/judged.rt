//! A program with its relevant sets.
use core_program::CoreProgram;
use rules::RelevantSets;
use std::marker::Model;

/// A program with the sets that are its relevant ones.
#[derive(Drop)]
pub(crate) struct Judged<'a> {
    pub(crate) program: &'a CoreProgram,
    pub(crate) sets: &'a RelevantSets,
}

impl<'a> Model for Judged<'a> {
    ghost use Rattle.std.specs.Prelude.{List};
    ghost use Rattle.core_program.specs.declared.program.CoreProgram.{CoreProgram};
    ghost use Rattle.core_program.specs.Views.{program_of};
    ghost use Rattle.rules.specs.Near.{MethodPaths, AreRelevant};
    ghost use Rattle.core_program.specs.contracts.tree.CoreStmt as statement;
    ghost use Rattle.std.specs.Coded.{codes};

    ghost Value = { CoreProgram × List MethodPaths };

    ghost coded = { Prim.hlevel (codes, statement.the_row.coded) };

    ghost view = { λ j. (j.program.now, j.sets.now) };

    ghost invariant = { λ j. AreRelevant (program_of j.program.now) j.sets.now };
}

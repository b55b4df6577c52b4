//! Takes a tree of the grammar to its core program and the locks that matter, or to the fault for which it is refused.

ghost use Rattle.std.specs.Prelude.{◌≡◌, ◌≤◌, ℕ, [], length, MatchResult, slice_get};
ghost use Rattle.lexer.specs.Limits.{longest_source};
ghost use Rattle.syntax.specs.Trees.{ProgramTree};
ghost use Rattle.syntax.specs.Views.{program_tree as tree_of};
ghost use Rattle.classes.specs.Faults.{all_class_faults};
ghost use Rattle.classes.specs.Table.{table_of};
ghost use Rattle.classes.specs.Views.{table_data};
ghost use Rattle.core_program.specs.Typed.{IsTyped};
ghost use Rattle.core_program.specs.Views.{program_of};
ghost use Rattle.typing.specs.Programs.{IsCoreOf};
ghost use Rattle.rules.specs.Limits.{IsFirstCrowded};
ghost use Rattle.rules.specs.Near.{AreRelevant, AreFew};
ghost use Rattle.sources.specs.Refusals.{IsRight, IsRightEnd};
ghost use Rattle.sources.specs.Programs.{IsProgram};
ghost use Rattle.sources.specs.Checking.{HasCore, NoSource, IsSource, IsSourceOf};
ghost use Rattle.sources.specs.Offsets.{name_offset};

use crate::reading::{text_of, tree_of};
use crate::refusal::{Refusal, SourceEnd, refusal_of, refuse};
use classes::{ClassFault, ClassTable, table};
use core_program::CoreProgram;
use paths::MethodId;
use report::SourceFault;
use rules::{RelevantSets, RuleEnd, relevant};
use std::alloc::Global;
use std::mem::forget;
use syntax::Program;
use typing::{TypeFault, elaborate};

/// A well-formed source: its class table, which lends slices of the source, its core program and the locks that matter for each method.
#[derive(Drop)]
pub struct Source<'a> {
    pub table: ClassTable<'a>,
    pub program: CoreProgram,
    pub sets: RelevantSets,
}

/// The class table of the tree of this text.
fn class_table<'a>(
    alloc: Global,
    text: &str,
    tree: &Program<'a>,
) -> Result<ClassTable<'a>, SourceEnd>
    requires small { length text.now ≤ longest_source }
    requires program { IsProgram text.now (tree_of tree.now) }
    ensures { MatchResult result (λ t. (all_class_faults (tree_of tree.now) ≡ []) × (table_data t ≡ table_of (tree_of tree.now))) (IsRightEnd (NoSource text.now)) }
{
    match table(alloc, tree) {
        Ok(table) => Ok(table),
        Err(ClassFault::NoMemory) => Err(SourceEnd::NoMemory),
        Err(fault) => Err(refuse(text, &SourceFault::Class(fault))),
    }
}

/// The core program of the tree of this text.
fn core_program(
    alloc: Global,
    text: &str,
    table: &ClassTable,
    tree: &Program,
) -> Result<CoreProgram, SourceEnd>
    requires small { length text.now ≤ longest_source }
    requires program { IsProgram text.now (tree_of tree.now) }
    requires no_class_faults { all_class_faults (tree_of tree.now) ≡ [] }
    requires table { table_data table.now ≡ table_of (tree_of tree.now) }
    ensures { MatchResult result (λ p. IsCoreOf (tree_of tree.now) (program_of p) × IsTyped (program_of p)) (IsRightEnd (NoSource text.now)) }
{
    match elaborate(alloc, table, tree) {
        Ok(program) => Ok(program),
        Err(TypeFault::NoMemory) => Err(SourceEnd::NoMemory),
        Err(fault) => Err(refuse(text, &SourceFault::Types(fault))),
    }
}

/// The offset of a method's name.
fn name_offset(program: &CoreProgram, method: MethodId) -> u32
    ensures { result ≡ name_offset (slice_get (program_of program.now).methods method) }
{
    match program.methods().get(method.0 as usize) {
        Some(method) => method.place_at,
        None => 0,
    }
}

/// The end of this text where its relevant sets end so.
fn too_many_locks(text: &str, program: &CoreProgram, end: RuleEnd) -> SourceEnd
    requires small { length text.now ≤ longest_source }
    requires core { (tree : ProgramTree) × HasCore text.now tree (program_of program.now) }
    requires first { (m : ℕ) → end ≡ RuleEnd.TooManyLocks m → IsFirstCrowded (program_of program.now) m }
    ensures { IsRightEnd (NoSource text.now) result }
{
    match end {
        RuleEnd::NoMemory => SourceEnd::NoMemory,
        RuleEnd::TooManyLocks { method } => {
            let at = name_offset(program, method);
            refuse(text, &SourceFault::Locks { at })
        }
    }
}

/// The locks that matter for the methods of this text.
fn relevant_sets(
    alloc: Global,
    text: &str,
    program: &CoreProgram,
) -> Result<RelevantSets, SourceEnd>
    requires small { length text.now ≤ longest_source }
    requires core { (tree : ProgramTree) × HasCore text.now tree (program_of program.now) }
    requires typed { IsTyped (program_of program.now) }
    ensures { MatchResult result (λ s. AreRelevant (program_of program.now) s × AreFew s) (IsRightEnd (NoSource text.now)) }
{
    match relevant(alloc, program) {
        Ok(sets) => Ok(sets),
        Err(end) => Err(too_many_locks(text, program, end)),
    }
}

/// Checks the tree of this text: its classes, its types, and how many locks matter.
pub fn well_formed<'a>(
    alloc: Global,
    text: &str,
    tree: &Program<'a>,
) -> Result<Source<'a>, SourceEnd>
    requires small { length text.now ≤ longest_source }
    requires program { IsProgram text.now (tree_of tree.now) }
    ensures { MatchResult result (IsSource text.now (tree_of tree.now)) (IsRightEnd (NoSource text.now)) }
{
    let table = class_table(alloc, text, tree)?;
    let program = core_program(alloc, text, &table, tree)?;
    let sets = relevant_sets(alloc, text, &program)?;
    Ok(Source {
        table,
        program,
        sets,
    })
}

/// The well-formed source that these bytes are, or why they are none. The memory of its tree is given back when the
/// program ends: to give it back node by node takes as long as a tenth of all that `check` does.
#[tactic(auto, using(crate::proofs::Told::refused_source))]
fn source_of<'a>(alloc: Global, bytes: &'a [u8]) -> Result<Source<'a>, SourceEnd>
    requires { length bytes.now ≤ longest_source }
    ensures { MatchResult result (IsSourceOf bytes.now) (IsRightEnd (NoSource bytes.now)) }
{
    let text = text_of(bytes)?;
    let tree = tree_of(alloc, text)?;
    let source = well_formed(alloc, text, &tree);
    forget(tree);
    source
}

/// The well-formed source that these bytes are, or the refusal.
pub fn read_source<'a>(alloc: Global, bytes: &'a [u8]) -> Result<Source<'a>, Refusal>
    requires { length bytes.now ≤ longest_source }
    ensures { MatchResult result (IsSourceOf bytes.now) (IsRight (NoSource bytes.now)) }
{
    match source_of(alloc, bytes) {
        Ok(source) => Ok(source),
        Err(end) => Err(refusal_of(alloc, end)),
    }
}

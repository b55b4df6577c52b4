//! What is answered to the bytes of a source.

ghost use Rattle.std.specs.Prelude.{◌≡◌, ◌≤◌, ◌^◌, length, map, IfOk, MatchResult, string_bytes};
ghost use Rattle.conditions.specs.Conditions.{cond_of};
ghost use Rattle.core_program.specs.Views.{program_of};
ghost use Rattle.explain.specs.Shown.{shown as shown_by};
ghost use Rattle.explain_commands.specs.Answers.{ExplainAnswer, IsJudgedProgram, IsText, pages_of};
ghost use Rattle.explain_commands.specs.Explained.{page_of};
ghost use Rattle.explain_commands.specs.Orders.{ending_in, strict_ending};
ghost use Rattle.classes.specs.Views.{table_data};
ghost use Rattle.lexer.specs.Limits.{longest_source};
ghost use Rattle.rules.specs.Near.{rel_of};
ghost use Rattle.sources.specs.Checking.{IsSource, NoSource};
ghost use Rattle.sources.specs.Programs.{IsProgram};
ghost use Rattle.sources.specs.Refusals.{IsRightEnd};
ghost use Rattle.syntax.specs.Views.{member_of, program_tree as tree_of};

use crate::explaining::{explained, explained_with_warnings};
use crate::judging::judge;
use crate::lines::fault_text;
use crate::listing::listed;
use crate::told::Told;
use crate::words::Order;
use effects::Assigned;
use explain::{Shown, Walk, keep_strictly};
use places::{LineIndex, methods_in};
use sources::{Ending, Source, SourceEnd, text_of, tree_of, well_formed};
use std::alloc::{AllocError as NoMemory, Global};
use syntax::{Member, Program};

/// How it ended, and the text that is written.
#[derive(Drop)]
pub struct Said {
    pub ending: Ending,
    pub text: String,
}

/// The text that is asked for.
fn text_for<A: Assigned>(
    order: Order,
    told: &Told<'_, '_, '_>,
    walk: &Walk<'_, A>,
) -> Result<String, NoMemory>
    requires there { length (program_of walk.now.program.now).methods ≤ length told.now.methods.now.items }
    requires few { length (program_of walk.now.program.now).methods ≤ 2 ^ 32 }
    ensures { IfOk result (λ text. IsText order (program_of walk.now.program.now) (rel_of walk.now.sets.now) (A.Assigned.assigned walk.now.assigned.now)
        (page_of told.now.file.now told.now.index.now (table_data told.now.source.now.table) (map (λ m. member_of m.now) told.now.methods.now.items)) (string_bytes text)) }
{
    match order {
        Order::Why => explained(Order::Why, told, walk),
        Order::All => listed(told, walk),
        Order::Strict => explained_with_warnings(told, walk),
    }
}

/// How it ends by whether all methods keep their bounds.
fn strict_ending(keep: bool) -> Ending
    ensures { result ≡ strict_ending keep }
{
    if keep {
        Ending::Done
    } else {
        Ending::Inadmissible
    }
}

/// How it ends, where it ends so by the bounds that methods declare.
fn ending_in<A: Assigned>(order: Order, walk: &Walk<'_, A>, declared: Ending) -> Ending
    requires { length (program_of walk.now.program.now).methods ≤ 2 ^ 32 }
    ensures { result ≡ ending_in order (program_of walk.now.program.now) (A.Assigned.assigned walk.now.assigned.now) declared }
{
    match order {
        Order::Why => declared,
        Order::All => declared,
        Order::Strict => strict_ending(keep_strictly(walk)),
    }
}

/// What is said, where these are the trees of a source's least closed assignment and its methods in the tree, and it ends so by the bounds that
/// methods declare.
fn said_of_source<'t, 'p, 'a>(
    alloc: Global,
    order: Order,
    told: &Told<'t, 'p, 'a>,
    shown: &Shown<'t>,
    declared: Ending,
) -> Result<Said, NoMemory>
    requires there { length (program_of told.now.source.now.program).methods ≤ length told.now.methods.now.items }
    requires few { length (program_of told.now.source.now.program).methods ≤ 2 ^ 32 }
    ensures text { IfOk result (λ said. IsText order (program_of told.now.source.now.program) (rel_of told.now.source.now.sets) (shown_by (map cond_of shown.now.trees.now))
        (page_of told.now.file.now told.now.index.now (table_data told.now.source.now.table) (map (λ m. member_of m.now) told.now.methods.now.items)) (string_bytes said.text)) }
    ensures ending { IfOk result (λ said. said.ending ≡ ending_in order (program_of told.now.source.now.program) (shown_by (map cond_of shown.now.trees.now)) declared) }
{
    let walk = Walk {
        alloc,
        program: &told.source.program,
        sets: &told.source.sets,
        assigned: shown,
    };
    let text = text_for(order, told, &walk)?;
    Ok(Said {
        ending: ending_in(order, &walk, declared),
        text,
    })
}

/// What is said of a well-formed source.
fn judged<'t, 'p, 'a>(
    alloc: Global,
    order: Order,
    file: &'t str,
    index: &'t LineIndex<'a>,
    tree: &'p Program<'a>,
    source: &'t Source<'a>,
) -> Result<Said, NoMemory>
    requires { IsSource index.now (tree_of tree.now) source.now }
    ensures { IfOk result (λ said. IsJudgedProgram order (program_of source.now.program) (pages_of file.now index.now (tree_of tree.now)) said.ending (string_bytes said.text)) }
{
    let judged = judge(alloc, source)?;
    let shown = Shown {
        trees: judged.trees.as_slice(),
    };
    let methods = methods_in(alloc, tree)?;
    let told = Told {
        file: &*file,
        index: &*index,
        source: &*source,
        methods: &methods,
    };
    let said = said_of_source(alloc, order, &told, &shown, judged.ending)?;
    Ok(said)
}

/// What is said of a text that has this tree, or why it is no well-formed source.
fn answered_tree<'a>(
    alloc: Global,
    order: Order,
    file: &str,
    text: &'a str,
    tree: &Program<'a>,
) -> Result<Said, SourceEnd>
    requires small { length text.now ≤ longest_source }
    requires program { IsProgram text.now (tree_of tree.now) }
    ensures { MatchResult result (λ said. ExplainAnswer order file.now text.now said.ending (string_bytes said.text)) (IsRightEnd (NoSource text.now)) }
{
    let index = LineIndex::new(alloc, text)?;
    let source = well_formed(alloc, text, tree)?;
    let said = judged(alloc, order, file, &index, tree, &source)?;
    Ok(said)
}

/// What is said of bytes, or why they are no well-formed source.
#[tactic(auto, using(sources::proofs::Told::refused_source))]
fn answered(alloc: Global, order: Order, file: &str, bytes: &[u8]) -> Result<Said, SourceEnd>
    requires { length bytes.now ≤ longest_source }
    ensures { MatchResult result (λ said. ExplainAnswer order file.now bytes.now said.ending (string_bytes said.text)) (IsRightEnd (NoSource bytes.now)) }
{
    let text = text_of(bytes)?;
    let tree = tree_of(alloc, text)?;
    answered_tree(alloc, order, file, text, &tree)
}

/// How it ends, and the text that is written, for the bytes of a file of this name.
pub fn explain(alloc: Global, order: Order, file: &str, bytes: &[u8]) -> Result<Said, NoMemory>
    requires { length bytes.now ≤ longest_source }
    ensures { IfOk result (λ said. ExplainAnswer order file.now bytes.now said.ending (string_bytes said.text)) }
{
    match answered(alloc, order, file, bytes) {
        Ok(said) => Ok(said),
        Err(SourceEnd::Fault(place, fault)) => Ok(Said {
            ending: Ending::Refused,
            text: fault_text(alloc, file, place, &fault)?,
        }),
        Err(SourceEnd::NoMemory) => Err(NoMemory),
    }
}

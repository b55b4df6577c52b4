//! The two passes over the method lines of a book: their shapes, and then method by method their trees, steps, overriding methods
//! and bounds.
ghost use Rattle.std.specs.Prelude.{◌≡◌, ◌≢◌, ◌↔◌, ◌+◌, ℕ, List, Some, true, slice_get, IfErr, IfOk};
ghost use Rattle.core_program.specs.Views.{method_of, program_of};
ghost use Rattle.conditions.specs.Conditions.{Cond};
ghost use Rattle.paths.specs.Paths.{PathData};
ghost use Rattle.books.specs.Books.{Line};
ghost use Rattle.book_check.specs.Judges.{judge_near, judge_table, AreCanonical};
ghost use Rattle.book_check.specs.Nearness.{steps_near, AreNear, AreOwnNear};
ghost use Rattle.book_check.specs.declared.wrong.Wrong.{Wrong};
ghost use Rattle.book_check.specs.Works.{IsUnbounded};
ghost use Rattle.book_check.specs.Overs.{AreOversFirst, AreOversOf};
ghost use Rattle.book_check.specs.Passes.{AreAllShaped, AreLinesJudged, IsFirstNear, IsLineStep, IsShapeStep};

use crate::asked::Shapes;
use crate::judge::Judge;
use crate::line::line_verdict;
use crate::overs::Overs;
use crate::steps::Steps;
use crate::walk::{End, WalkedNode, walk_node};
use crate::work::Work;
use crate::wrong::Wrong;
use books::Lines;
use core_program::{CoreMethod, CoreProgram};
use effects::BodyPart;
use paths::MethodId;
use std::alloc::{AllocError as NoMemory, Global};

/// Whether an id is this number.
fn is_method(id: MethodId, m: u32) -> bool
    ensures { (result ≡ true) ↔ (id ≡ m) }
{
    id == MethodId(m)
}

/// The number of the tree of the first method line, and the other lines, where the first is the line of this method, which has this
/// position, and has the shape of its body.
fn next_shape<L: Lines>(
    alloc: Global,
    m: u32,
    method: &CoreMethod,
    from: L,
) -> Result<(u32, L), Wrong>
    requires { L.AreLinesKept from }
    ensures step { IsShapeStep L.lines m (method_of method.now) (L.lines from) result }
    ensures kept { IfOk result (λ x. L.AreLinesKept x.1) }
    ensures judged { IfErr result (λ fault. fault ≢ Wrong.Work) }
{
    let misshaped = Wrong::Shape { method: m, node: 0 };
    let Some(line) = from.first_line() else {
        return Err(misshaped);
    };
    if !is_method(line.id, m) {
        return Err(misshaped);
    }
    let body = BodyPart::Stmt(&method.body);
    let walked = WalkedNode {
        word: line.word,
        number: line.node,
        premises: line.premises,
    };
    match walk_node(alloc, &Shapes, body, &walked, 0)? {
        End::Good(_) => Ok((line.number, line.rest)),
        End::Bad(node) => Err(Wrong::Shape { method: m, node }),
    }
}

/// The next position; want of memory where there is none.
pub(crate) fn next_position(m: u32) -> Result<u32, NoMemory>
    ensures { IfOk result (λ next. next ≡ m + 1) }
{
    match m.checked_add(1) {
        Some(next) => Ok(next),
        None => Err(NoMemory),
    }
}

/// The first pass: the shape of every position. Gives the numbers of the method lines' trees.
pub(crate) fn shapes<L: Lines>(
    alloc: Global,
    program: &CoreProgram,
    from: L,
) -> Result<Vec<u32>, Wrong>
    requires { L.AreLinesKept from }
    ensures shaped { (rel : ℕ → List PathData) (table : List Cond) → AreAllShaped (program_of program.now) rel (record { table = table; lines = L.lines from }) result }
    ensures judged { IfErr result (λ fault. fault ≢ Wrong.Work) }
{
    let mut ahead = from;
    let mut numbers = Vec::new(alloc);
    let mut rest = program.methods();
    let mut m = 0;
    'methods: while let Some((method, others)) = rest.split_first() {
        let next = match next_shape(alloc, m, method, ahead) {
            Ok(next) => next,
            Err(wrong) => return Err(wrong),
        };
        numbers.push(next.0)?;
        ahead = next.1;
        rest = others;
        m = next_position(m)?;
    }
    match ahead.first_line() {
        None => Ok(numbers),
        Some(_) => Err(Wrong::Shape { method: m, node: 0 }),
    }
}

/// The second pass, within this work: method by method the tree, the steps, the overriding methods' trees and the bound of its line.
pub(crate) fn lines<'a, L: Lines>(
    alloc: Global,
    work: Work<'a>,
    judge: &'a Judge<'a>,
    over: &Overs,
    from: L,
) -> Result<(), Wrong>
    requires kept { L.AreLinesKept from }
    requires canonical { AreCanonical (judge_table judge.now) }
    requires overs { AreOversOf judge.now (L.lines from) over.now }
    ensures judged { (table : List Cond) → AreLinesJudged judge.now (record { table = table; lines = L.lines from }) result }
    ensures near { AreOwnNear judge.now → ((m : ℕ) (line : Line) → slice_get (L.lines from) m ≡ Some line → AreNear (judge_near judge.now m) (judge_table judge.now) line.body) →
        IfErr result (λ fault. fault ≢ Wrong.Work) }
    ensures free { IsUnbounded work.entry → IfErr result (λ fault. fault ≢ Wrong.Work) }
{
    let mut ahead = from;
    let mut rest = judge.program.methods();
    let mut m = 0;
    'methods: while let Some((method, others)) = rest.split_first() {
        let steps = Steps {
            judge,
            method: MethodId(m),
            left: work,
        };
        match next_verdict(alloc, &steps, over, method, ahead) {
            Ok(behind) => ahead = behind,
            Err(wrong) => return Err(wrong),
        }
        rest = others;
        m = next_position(m)?;
    }
    Ok(())
}

/// The judgement of the first method line, which is that of this method, at its position; and the other lines.
fn next_verdict<L: Lines>(
    alloc: Global,
    steps: &Steps<'_>,
    over: &Overs,
    method: &CoreMethod,
    from: L,
) -> Result<L, Wrong>
    requires kept { L.AreLinesKept from }
    requires canonical { AreCanonical (judge_table steps.now.judge.now) }
    requires overs { AreOversFirst steps.now.judge.now steps.now.method (method_of method.now) (L.lines from) over.now }
    ensures step { IsLineStep L.lines steps.now.judge.now steps.now.method (method_of method.now) (L.lines from) result }
    ensures kept { IfOk result L.AreLinesKept }
    ensures near { AreOwnNear steps.now.judge.now → IsFirstNear (steps_near steps.now) (judge_table steps.now.judge.now) (L.lines from) →
        IfErr result (λ fault. fault ≢ Wrong.Work) }
    ensures free { IsUnbounded steps.now.left → IfErr result (λ fault. fault ≢ Wrong.Work) }
{
    let Some(line) = from.first_line() else {
        return Err(Wrong::Memory);
    };
    match line_verdict(alloc, steps, over, method, &line)? {
        Some(wrong) => Err(wrong),
        None => Ok(line.rest),
    }
}

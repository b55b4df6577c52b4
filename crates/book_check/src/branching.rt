//! Values that look at one path at most, and steps whose premises and conclusion are such values: they take no tree.
ghost use Rattle.std.specs.Prelude.{◌≡◌, ◌↔◌, ℕ, List, true, map, IfSome, if◌then◌else◌};
ghost use Rattle.paths.specs.Paths.{PathData};
ghost use Rattle.algebra.specs.Basics.{seq_of, star_of};
ghost use Rattle.algebra.specs.HeldPaths.{Held};
ghost use Rattle.algebra.specs.Values.{sync_of};
ghost use Rattle.conditions.specs.Conditions.{cond_of, value_of};
ghost use Rattle.core_program.specs.Views.{expr_of, program_of, stmt_of};
ghost use Rattle.rules.specs.Effect.{Assignment};
ghost use Rattle.rules.specs.Rules.{AtMost};
ghost use Rattle.book_check.specs.Conclusions.{conclusions, table_value};
ghost use Rattle.effects.specs.Accesses.{branching_value};
ghost use Rattle.book_check.specs.Merges.{combined_of, IsFirstValue};
ghost use Rattle.effects.specs.Rules.{choice_value, expr_rule, in_sequence, lock_value, loop_value, rule_of, stmt_rule};
ghost use Rattle.effects.specs.Bodies.{part_of};

use crate::lookups::tree_at;
use crate::pairs::{both, branches, leaf_of};
use algebra::Basic;
use books::Nodes;
use conditions::Tree;
use core_program::{CoreExpr, CoreProgram, CoreStmt};
use effects::{BodyPart, Branching, access_value};
use paths::Path;

/// How two values make one.
#[derive(Clone, Copy)]
pub(crate) enum Way {
    Seq,
    Join,
}

/// Two basics made one.
fn combined(way: Way, first: Basic, second: Basic) -> Basic
    ensures { result ≡ combined_of way first second }
{
    match way {
        Way::Seq => first.seq(second),
        Way::Join => first.join(second),
    }
}

/// Two values made one, where they look at one path at most.
fn merged(way: Way, first: Branching, second: Branching) -> Option<Branching>
    ensures { IfSome result (λ x. (H : Held) → branching_value x H ≡ combined_of way (branching_value first H) (branching_value second H)) }
{
    match (first, second) {
        (Branching::Always(a), Branching::Always(b)) => {
            Some(Branching::Always(combined(way, a, b)))
        }
        (Branching::Always(a), Branching::Where(path, x, y)) => {
            let held = combined(way, a, x);
            let free = combined(way, a, y);
            Some(Branching::Where(path, held, free))
        }
        (Branching::Where(path, x, y), Branching::Always(b)) => {
            let held = combined(way, x, b);
            let free = combined(way, y, b);
            Some(Branching::Where(path, held, free))
        }
        (Branching::Where(path, x, y), Branching::Where(other, u, v)) => {
            if !path.same(&other) {
                return None;
            }
            let held = combined(way, x, u);
            let free = combined(way, y, v);
            Some(Branching::Where(path, held, free))
        }
    }
}

/// A value any number of times.
#[tactic(auto, using(crate::proofs::BranchLemmas::star_where))]
fn starred(value: Branching) -> Branching
    ensures { (H : Held) → branching_value result H ≡ star_of (branching_value value H) }
{
    match value {
        Branching::Always(basic) => Branching::Always(basic.star()),
        Branching::Where(path, held, free) => {
            let held = held.star();
            let free = free.star();
            Branching::Where(path, held, free)
        }
    }
}

/// A value under the lock with this path, where it looks at no other.
#[tactic(auto, using(crate::proofs::BranchLemmas::lock_where))]
fn under(path: &Path, value: &Branching) -> Option<Branching>
    ensures { IfSome result (λ x. (H : Held) → branching_value x H ≡ sync_of path.now (branching_value value.now) H) }
{
    match value {
        Branching::Always(basic) => Some(Branching::Where(path.copy(), *basic, basic.lift())),
        Branching::Where(other, held, _) => {
            if !other.same(path) {
                return None;
            }
            Some(Branching::Where(path.copy(), *held, held.lift()))
        }
    }
}

/// The value of a tree that looks at one path at most.
fn value_in(t: &Tree) -> Option<Branching>
    ensures { IfSome result (λ x. (H : Held) → value_of (cond_of t.now) H ≡ branching_value x H) }
{
    match t {
        Tree::Leaf(basic) => Some(Branching::Always(*basic)),
        Tree::Test(path, a, b) => {
            let held = leaf_of(a)?;
            let free = leaf_of(b)?;
            Some(Branching::Where(path.copy(), held, free))
        }
    }
}

/// The value with this number in a table, where it looks at one path at most.
fn value_at(table: &[Tree], number: u32) -> Option<Branching>
    ensures { IfSome result (λ x. (H : Held) → table_value (map cond_of table.now) number H ≡ branching_value x H) }
{
    let tree = tree_at(table, number)?;
    value_in(tree)
}

/// The values that nodes conclude, one after another.
fn sequence<F: Nodes>(table: &[Tree], nodes: F) -> Option<Branching>
    requires { F.AreKept nodes }
    ensures { IfSome result (λ x. (H : Held) → in_sequence (conclusions (table_value (map cond_of table.now)) (F.nodes nodes)) H ≡ branching_value x H) }
{
    let mut all = Branching::Always(Basic::Const);
    let mut rest = nodes;
    'nodes: while let Some(first) = rest.first() {
        let next = value_at(table, first.number)?;
        all = merged(Way::Seq, all, next)?;
        rest = first.rest;
    }
    Some(all)
}

/// The value that the first of some nodes concludes, and the other nodes.
fn first_value<F: Nodes>(table: &[Tree], nodes: F) -> Option<(Branching, F)>
    requires { F.AreKept nodes }
    ensures value { IfSome result (λ x. IsFirstValue (table_value (map cond_of table.now)) (F.nodes nodes) x.0 (F.nodes x.1)) }
    ensures kept { IfSome result (λ x. F.AreKept x.1) }
{
    let first = nodes.first()?;
    let value = value_at(table, first.number)?;
    Some((value, first.rest))
}

/// A condition and then either branch.
#[tactic(auto, using(crate::proofs::BranchLemmas::choice_is))]
fn choice<F: Nodes>(table: &[Tree], nodes: F) -> Option<Branching>
    requires { F.AreKept nodes }
    ensures { IfSome result (λ x. (H : Held) → choice_value (conclusions (table_value (map cond_of table.now)) (F.nodes nodes)) H ≡ branching_value x H) }
{
    let (condition, branches) = first_value(table, nodes)?;
    let (first, others) = first_value(table, branches)?;
    let (second, _) = first_value(table, others)?;
    let either = merged(Way::Join, first, second)?;
    merged(Way::Seq, condition, either)
}

/// A condition, and then the body and the condition any number of times.
fn repetition<F: Nodes>(table: &[Tree], nodes: F) -> Option<Branching>
    requires { F.AreKept nodes }
    ensures { IfSome result (λ x. (H : Held) → loop_value (conclusions (table_value (map cond_of table.now)) (F.nodes nodes)) H ≡ branching_value x H) }
{
    let (condition, bodies) = first_value(table, nodes)?;
    let (again, _) = first_value(table, nodes)?;
    let (body, _) = first_value(table, bodies)?;
    let turn = merged(Way::Seq, body, again)?;
    merged(Way::Seq, condition, starred(turn))
}

/// A synchronized part.
#[tactic(auto, using(crate::proofs::BranchLemmas::lock_is))]
fn locked<F: Nodes>(table: &[Tree], path: &Path, nodes: F) -> Option<Branching>
    requires { F.AreKept nodes }
    ensures { IfSome result (λ x. (H : Held) → lock_value path.now (conclusions (table_value (map cond_of table.now)) (F.nodes nodes)) H ≡ branching_value x H) }
{
    let (body, _) = first_value(table, nodes)?;
    under(path, &body)
}

/// The values that nodes conclude, one after another, and then a last value.
#[tactic(auto, using(crate::proofs::BranchLemmas::sequence_then))]
fn sequence_then<F: Nodes>(table: &[Tree], nodes: F, last: Branching) -> Option<Branching>
    requires { F.AreKept nodes }
    ensures { IfSome result (λ x. (H : Held) → seq_of (in_sequence (conclusions (table_value (map cond_of table.now)) (F.nodes nodes)) H) (branching_value last H) ≡ branching_value x H) }
{
    let first = sequence(table, nodes)?;
    merged(Way::Seq, first, last)
}

/// The value of an expression's rule, where it can be told so. None for calls.
fn expr_value<F: Nodes>(
    program: &CoreProgram,
    table: &[Tree],
    e: &CoreExpr,
    premises: F,
) -> Option<Branching>
    requires { F.AreKept premises }
    ensures { (rel : ℕ → List PathData) (A : Assignment) → IfSome result (λ x. (H : Held) →
        expr_rule (program_of program.now) rel A (expr_of e.now) (conclusions (table_value (map cond_of table.now)) (F.nodes premises)) H ≡ branching_value x H) }
{
    match e {
        CoreExpr::Int(_) | CoreExpr::Truth(_) | CoreExpr::Null | CoreExpr::This => {
            Some(Branching::Always(Basic::Const))
        }
        CoreExpr::Var { is_final: true, .. } => Some(Branching::Always(Basic::Const)),
        CoreExpr::Var { .. } => Some(Branching::Always(Basic::Mover)),
        CoreExpr::Not(_)
        | CoreExpr::Neg(_)
        | CoreExpr::Binary(_, _, _)
        | CoreExpr::And(_, _)
        | CoreExpr::Or(_, _) => sequence(table, premises),
        CoreExpr::Get(receiver, field) => {
            let last = access_value(program, receiver, *field, false);
            sequence_then(table, premises, last)
        }
        CoreExpr::New(_, _) => sequence_then(table, premises, Branching::Always(Basic::Mover)),
        CoreExpr::Call(_, _, _) => None,
    }
}

/// The value of a statement's rule, where it can be told so. None for blocks.
fn stmt_value<F: Nodes>(
    program: &CoreProgram,
    table: &[Tree],
    s: &CoreStmt,
    premises: F,
) -> Option<Branching>
    requires { F.AreKept premises }
    ensures { (rel : ℕ → List PathData) (A : Assignment) → IfSome result (λ x. (H : Held) →
        stmt_rule (program_of program.now) rel A (stmt_of s.now) (conclusions (table_value (map cond_of table.now)) (F.nodes premises)) H ≡ branching_value x H) }
{
    match s {
        CoreStmt::Empty => Some(Branching::Always(Basic::Const)),
        CoreStmt::Local { .. } | CoreStmt::SetVar(_, _) => {
            sequence_then(table, premises, Branching::Always(Basic::Mover))
        }
        CoreStmt::SetField(receiver, field, _) => {
            let last = access_value(program, receiver, *field, true);
            sequence_then(table, premises, last)
        }
        CoreStmt::Do(_, _) | CoreStmt::Return(_) => sequence(table, premises),
        CoreStmt::If(_, _, _) => choice(table, premises),
        CoreStmt::While(_, _) => repetition(table, premises),
        CoreStmt::Sync(path, _) => locked(table, path, premises),
        CoreStmt::Print(_) | CoreStmt::Start(_) => {
            sequence_then(table, premises, Branching::Always(Basic::Atomic))
        }
        CoreStmt::Block(_) => None,
    }
}

/// The value of a part's rule, where it can be told so.
fn part_value<F: Nodes>(
    program: &CoreProgram,
    table: &[Tree],
    part: BodyPart<'_>,
    premises: F,
) -> Option<Branching>
    requires { F.AreKept premises }
    ensures { (rel : ℕ → List PathData) (A : Assignment) → IfSome result (λ x. (H : Held) →
        rule_of (program_of program.now) rel A (part_of part.entry) (conclusions (table_value (map cond_of table.now)) (F.nodes premises)) H ≡ branching_value x H) }
{
    match part {
        BodyPart::Expr(e) => expr_value(program, table, e, premises),
        BodyPart::Stmt(s) => stmt_value(program, table, s, premises),
    }
}

/// Whether a basic where a path is held and another where it isn't are at most a tree that tests nothing else.
fn where_below(path: &Path, held: Basic, free: Basic, d: &Tree) -> Option<bool>
    ensures { IfSome result (λ b. (b ≡ true) ↔ ((H : Held) → AtMost (if H path.now then held else free) (value_of (cond_of d.now) H))) }
{
    let (high, low) = branches(path, d);
    let high = leaf_of(high)?;
    let low = leaf_of(low)?;
    Some(both(held.below(high), free.below(low)))
}

/// Whether a basic is at most a leaf.
fn always_below(basic: Basic, d: &Tree) -> Option<bool>
    ensures { IfSome result (λ b. (b ≡ true) ↔ ((H : Held) → AtMost basic (value_of (cond_of d.now) H))) }
{
    let most = leaf_of(d)?;
    Some(basic.below(most))
}

/// Whether a value is at most a tree that tests at most the path that the value looks at.
fn value_below(value: &Branching, d: &Tree) -> Option<bool>
    ensures { IfSome result (λ b. (b ≡ true) ↔ ((H : Held) → AtMost (branching_value value.now H) (value_of (cond_of d.now) H))) }
{
    match value {
        Branching::Always(basic) => always_below(*basic, d),
        Branching::Where(path, held, free) => where_below(path, *held, *free, d),
    }
}

/// Whether a tree is at or above the value of a part's rule, where it can be told with no tree for that value.
pub(crate) fn plain_step<F: Nodes>(
    program: &CoreProgram,
    table: &[Tree],
    part: BodyPart<'_>,
    premises: F,
    d: &Tree,
) -> Option<bool>
    requires { F.AreKept premises }
    ensures { (rel : ℕ → List PathData) (A : Assignment) → IfSome result (λ b. (b ≡ true) ↔ ((H : Held) →
        AtMost (rule_of (program_of program.now) rel A (part_of part.entry) (conclusions (table_value (map cond_of table.now)) (F.nodes premises)) H) (value_of (cond_of d.now) H))) }
{
    let value = part_value(program, table, part, premises)?;
    value_below(&value, d)
}

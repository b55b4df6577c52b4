//! Blocks whose statements are judged as a sequence: behind each of them the later values are what they are before it.
ghost use Rattle.std.specs.Prelude.{◌≡◌, ◌==◌, ◌&&◌, not, length, map, true, Option, IfOk};
ghost use Rattle.algebra.specs.HeldPaths.{Held};
ghost use Rattle.conditions.specs.Conditions.{cond_of};
ghost use Rattle.core_program.specs.Views.{stmt_of, stmts_from};
ghost use Rattle.paths.specs.Paths.{PathData};
ghost use Rattle.rules.specs.Effect.{after_local, after_stmt};
ghost use Rattle.book_check.specs.Judges.{judge_program, judge_value};
ghost use Rattle.book_check.specs.Pairs.{avoids as avoids_of};
ghost use Rattle.effects.specs.Rules.{block_value, in_sequence};

use crate::judge::Judge;
use crate::lookups::tree_at;
use crate::rule_values::keeps_paths;
use crate::stuck::{Stuck, visit};
use crate::work::Work;
use conditions::Tree;
use core_program::CoreStmt;
use paths::Path;

/// Whether a path begins at this slot.
fn is_rooted(path: &Path, slot: u16) -> bool
    ensures { result ≡ (path.now.root == slot) }
{
    path.root == slot
}

/// Whether the first doesn't hold, and the others do.
fn not_but_both(first: bool, second: bool, third: bool) -> bool
    ensures { result ≡ (not first && (second && third)) }
{
    !first && second && third
}

/// Whether a tree tests no path of this slot.
fn avoids(work: Work<'_>, slot: u16, t: &Tree) -> Result<bool, Stuck>
    ensures { IfOk result (λ b. b ≡ avoids_of slot (cond_of t.now)) }
{
    visit(work)?;
    match t {
        Tree::Leaf(_) => Ok(true),
        Tree::Test(path, a, b) => {
            let held = avoids(work, slot, a)?;
            let free = avoids(work, slot, b)?;
            Ok(not_but_both(is_rooted(path, slot), held, free))
        }
    }
}

/// Whether none of the trees with these numbers tests a path of this slot. Undecided where a number has no tree, which no book has.
fn all_avoid(work: Work<'_>, judge: &Judge<'_>, slot: u16, numbers: &[u32]) -> Result<bool, Stuck>
    ensures { IfOk result (λ b. b ≡ true → (o : Option PathData) (H : Held) →
        in_sequence (map (judge_value judge.now) numbers.now) (after_local H slot o) ≡ in_sequence (map (judge_value judge.now) numbers.now) H) }
{
    let mut rest = numbers;
    'numbers: while let Some((number, others)) = rest.split_first() {
        let Some(tree) = tree_at(judge.table, *number) else {
            return Err(Stuck::Undecided);
        };
        if !avoids(work, slot, tree)? {
            return Ok(false);
        }
        rest = others;
    }
    Ok(true)
}

/// Whether the values with these numbers, one after another, are the same behind a statement as before it.
fn keeps_values(
    work: Work<'_>,
    judge: &Judge<'_>,
    s: &CoreStmt,
    numbers: &[u32],
) -> Result<bool, Stuck>
    ensures { IfOk result (λ b. b ≡ true → (H : Held) →
        in_sequence (map (judge_value judge.now) numbers.now) (after_stmt (judge_program judge.now) (stmt_of s.now) H) ≡ in_sequence (map (judge_value judge.now) numbers.now) H) }
{
    if keeps_paths(s) {
        return Ok(true);
    }
    let CoreStmt::Local { slot, .. } = s else {
        return Ok(false);
    };
    all_avoid(work, judge, *slot, numbers)
}

/// Whether each of the statements keeps the values of the later ones, so that they are a sequence.
pub(crate) fn is_sequence(
    work: Work<'_>,
    judge: &Judge<'_>,
    body: &[CoreStmt],
    numbers: &[u32],
) -> Result<bool, Stuck>
    requires { length body.now ≡ length numbers.now }
    ensures { IfOk result (λ b. b ≡ true → (H : Held) →
        block_value (judge_program judge.now) (stmts_from body.now) (map (judge_value judge.now) numbers.now) H ≡ in_sequence (map (judge_value judge.now) numbers.now) H) }
{
    let mut statements = body;
    let mut rest = numbers;
    'statements: while let Some((s, others)) = statements.split_first() {
        let Some((_, later)) = rest.split_first() else {
            return Err(Stuck::Undecided);
        };
        if !keeps_values(work, judge, s, later)? {
            return Ok(false);
        }
        statements = others;
        rest = later;
    }
    Ok(true)
}

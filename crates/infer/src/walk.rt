//! The effect of a body at every set of held paths at once: the rule of each part, from the values of the parts that it is made of.
ghost use Rattle.std.specs.Prelude.{◌≡◌, ◌≤◌, IfOk, OnOk, drop, length};
ghost use Rattle.algebra.specs.HeldPaths.{Held};
ghost use Rattle.algebra.specs.Values.{Keeps};
ghost use Rattle.core_program.specs.Views.{stmt_of};
ghost use Rattle.rules.specs.Mentions.{mentions};
ghost use Rattle.rules.specs.Near.{AreRelevant};
ghost use Rattle.rules.specs.Effect.{call_of, effect};
ghost use Rattle.effects.specs.Bodies.{list_of, part_of};
ghost use Rattle.effects.specs.Effects.{part_effect};
ghost use Rattle.infer.specs.Bodies.{program_at, rel_at, near_at, assigned_at, part_mentions, parts_mentions, AreEffects, AreOfBody};
ghost use Rattle.infer.specs.Names.{left_by};

use crate::call::call_value;
use crate::local::before;
use crate::table::Table;
use algebra::Algebra;
use core_program::{CoreExpr, CoreProgram, CoreStmt};
use effects::{BodyPart, Context, InnerParts, inner_parts, rule};
use paths::MethodId;
use rules::RelevantSets;
use std::alloc::{AllocError as NoMemory, Global};

/// The method whose body is walked, with the tables of all methods.
#[derive(Clone, Copy)]
pub(crate) struct Walk<'a> {
    pub(crate) program: &'a CoreProgram,
    pub(crate) sets: &'a RelevantSets,
    pub(crate) tables: &'a [Table],
    pub(crate) method: MethodId,
}

impl<'a, G: Algebra> Context<G> for Walk<'a> {
    ghost IsReady = { λ s. Unit {0} };

    ghost plain = { λ s. program_at s };

    ghost called = { λ s. call_of (program_at s) (rel_at s) (assigned_at s) };

    ghost after = { λ s. left_by (program_at s) (near_at s) };

    fn program(&self) -> &CoreProgram {
        self.program
    }

    fn call_value(
        &self,
        alloc: Global,
        algebra: &mut G,
        receiver: &CoreExpr,
        callee: MethodId,
        args: &[CoreExpr],
    ) -> Result<G::A, NoMemory> {
        call_value(alloc, self, algebra, receiver, callee, args)
    }

    fn before(
        &self,
        alloc: Global,
        algebra: &mut G,
        s: &CoreStmt,
        rest: G::A,
    ) -> Result<G::A, NoMemory> {
        before(alloc, self, algebra, s, rest)
    }
}

/// The values from a place on.
fn behind<A>(values: &[A], from: usize) -> &[A]
    requires { from ≤ length values.now }
    ensures { result.now ≡ drop from values.now }
{
    &values[from..]
}

/// The effect of a part of the method's body. The values are as before; those of inner parts stand behind them meanwhile.
#[tactic(auto, using(effects::proofs::Sizes::parts_smaller))]
#[cycle(parts)]
fn part_value<G: Algebra>(
    alloc: Global,
    walk: &Walk<'_>,
    algebra: &mut G,
    values: &mut Vec<G::A>,
    part: BodyPart<'_>,
) -> Result<G::A, NoMemory>
    requires relevant { AreRelevant (program_at walk.now) walk.now.sets.now }
    requires part { AreOfBody walk.now (part_mentions (part_of part)) }
    ensures known { IfOk result (λ r. G.IsKnown algebra.new r) }
    ensures value { IfOk result (λ r. (H : Held) →
        G.value algebra.new r H ≡ part_effect (program_at walk.now) (rel_at walk.now) (assigned_at walk.now) (part_of part.entry) H) }
    ensures keeps { Keeps G.IsKnown G.value algebra.old algebra.new }
    ensures values { OnOk result (values.new.items ≡ values.old.items) }
{
    let from = values.len();
    put_values(alloc, walk, algebra, values, inner_parts(part))?;
    let value = rule(alloc, walk, algebra, part, behind(values.as_slice(), from))?;
    values.truncate(from);
    Ok(value)
}

/// The effects of parts of the method's body, put behind the values.
#[cycle(parts)]
fn put_values<G: Algebra>(
    alloc: Global,
    walk: &Walk<'_>,
    algebra: &mut G,
    values: &mut Vec<G::A>,
    parts: InnerParts<'_>,
) -> Result<(), NoMemory>
    requires relevant { AreRelevant (program_at walk.now) walk.now.sets.now }
    requires parts { AreOfBody walk.now (parts_mentions (list_of parts)) }
    ensures values { OnOk result (AreEffects G.IsKnown G.value algebra.new walk.now (list_of parts.entry) values.old.items values.new.items) }
    ensures keeps { Keeps G.IsKnown G.value algebra.old algebra.new }
{
    let mut rest = parts;
    'parts: while let Some((part, others)) = rest.first() {
        let value = part_value(alloc, walk, algebra, values, part)?;
        values.push(value)?;
        rest = others;
    }
    Ok(())
}

/// The effect of a statement of the method's body.
pub(crate) fn stmt_value<G: Algebra>(
    alloc: Global,
    walk: &Walk<'_>,
    algebra: &mut G,
    s: &CoreStmt,
) -> Result<G::A, NoMemory>
    requires relevant { AreRelevant (program_at walk.now) walk.now.sets.now }
    requires part { AreOfBody walk.now (mentions (stmt_of s.now)) }
    ensures known { IfOk result (λ r. G.IsKnown algebra.new r) }
    ensures value { IfOk result (λ r. (H : Held) →
        G.value algebra.new r H ≡ effect (program_at walk.now) (rel_at walk.now) (assigned_at walk.now) (stmt_of s.now) H) }
    ensures keeps { Keeps G.IsKnown G.value algebra.old algebra.new }
{
    let mut values = Vec::new(alloc);
    part_value(alloc, walk, algebra, &mut values, BodyPart::Stmt(s))
}

//! The body of a method: what its statements and expressions need to know, and its expressions.
#![tactic(auto, using(crate::proofs::Noting::noted_append))]

ghost use Rattle.std.specs.Prelude.{◌≡◌, ◌++◌, option_map, IfOk, OnOk};
ghost use Rattle.syntax.specs.Views.{expr_tree};
ghost use Rattle.typing.specs.Inside.{expr_faults_in, typed_in};
ghost use Rattle.typing.specs.Noted.{type_noted};
ghost use Rattle.typing.specs.Rulings.{broken, ruled};
ghost use Rattle.typing.specs.Stmts.{condition_rule};
ghost use Rattle.typing.specs.Views.{boxed_data, boxed_expr as boxed_node};

use crate::exprs::{Environment, boxed_expr};
use crate::first::FirstFault;
use crate::scope::Bound;
use crate::stmt_rules::condition_rule;
use crate::types::BoxedExpr;
use classes::ClassTable;
use core_program::{CoreExpr, CoreType};
use paths::ClassId;
use std::alloc::{AllocError as NoMemory, Global};
use syntax::Expr;

/// What is fixed for a body: where its nodes are made, the class table, and the method's class, its result and the slot of
/// its first local.
#[derive(Drop)]
pub(crate) struct Body<'t, 'a> {
    pub(crate) alloc: Global,
    pub(crate) table: &'t ClassTable<'a>,
    pub(crate) class: ClassId,
    pub(crate) returns: Option<CoreType>,
    pub(crate) first_local: u8,
}

/// An expression with these variables in scope, in a box.
pub(crate) fn typed(
    body: &Body,
    scope: &[Bound],
    e: &Expr,
    first: &mut FirstFault,
) -> Result<Option<BoxedExpr>, NoMemory>
    ensures typed { IfOk result (λ r. option_map boxed_data r ≡ typed_in body.now scope.now (expr_tree e.now)) }
    ensures fault { OnOk result (first.new ≡ type_noted first.old (expr_faults_in body.now scope.now (expr_tree e.now))) }
{
    let environment = Environment {
        alloc: body.alloc,
        table: body.table,
        class: body.class,
        scope,
    };
    boxed_expr(&environment, e, first)
}

/// A condition with these variables in scope.
pub(crate) fn condition(
    body: &Body,
    scope: &[Bound],
    e: &Expr,
    at: u32,
    first: &mut FirstFault,
) -> Result<Option<Box<CoreExpr>>, NoMemory>
    ensures node { IfOk result (λ c. option_map boxed_node c ≡ ruled (condition_rule at) (typed_in body.now scope.now (expr_tree e.now))) }
    ensures fault { OnOk result (first.new ≡ type_noted first.old (expr_faults_in body.now scope.now (expr_tree e.now) ++ broken (condition_rule at) (typed_in body.now scope.now (expr_tree e.now)))) }
{
    let part = typed(body, scope, e, first)?;
    Ok(condition_rule(at, part, first))
}

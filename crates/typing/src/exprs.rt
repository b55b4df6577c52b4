//! Expressions: the type and core node of each, where it has a type.
#![tactic(auto, using(crate::proofs::Noting::noted_append))]

ghost use Rattle.std.specs.Prelude.{◌≡◌, map, option_map, IfOk, OnOk};
ghost use Rattle.syntax.specs.Trees.{BinaryE, CallE, GetE, NegE, NewE, NotE};
ghost use Rattle.syntax.specs.Views.{expr_tree, exprs_from};
ghost use Rattle.typing.specs.Inside.{typed_there, typed_each, faults_there, faults_of_each};
ghost use Rattle.typing.specs.Noted.{type_noted};
ghost use Rattle.typing.specs.Views.{boxed_data, typed_data, typed_list};

use crate::calls::{call_rule, new_rule};
use crate::first::FirstFault;
use crate::gather::Gathered;
use crate::rules::{
    binary_rule, get_rule, least_number, neg_rule, not_rule, number_rule, value, variable_rule,
};
use crate::scope::Bound;
use crate::types::{BoxedExpr, ExprType, TypedExpr};
use classes::ClassTable;
use core_program::{CoreExpr, CoreType};
use paths::ClassId;
use std::alloc::{AllocError as NoMemory, Global};
use syntax::{Expr, Name, Op};

/// Where the nodes of an expression are made, and what its names are looked up in: the class table, the class that it
/// stands in, and the variables in scope.
#[derive(Clone, Copy)]
pub(crate) struct Environment<'t, 'a> {
    pub(crate) alloc: Global,
    pub(crate) table: &'t ClassTable<'a>,
    pub(crate) class: ClassId,
    pub(crate) scope: &'t [Bound<'a>],
}

/// An expression in an environment. None where it has no type; its faults are noted.
#[cycle(expressions)]
fn expr(
    environment: &Environment,
    e: &Expr,
    first: &mut FirstFault,
) -> Result<Option<TypedExpr>, NoMemory>
    ensures typed { IfOk result (λ r. option_map typed_data r ≡ typed_there environment.now (expr_tree e.now)) }
    ensures fault { OnOk result (first.new ≡ type_noted first.old (faults_there environment.now (expr_tree e.now))) }
{
    match e {
        Expr::Number(number, at) => Ok(number_rule(*number, *at, first)),
        Expr::Least(_) => Ok(Some(least_number())),
        Expr::Truth(truth, _) => Ok(Some(value(CoreType::Boolean, CoreExpr::Truth(*truth)))),
        Expr::Null(_) => Ok(Some(TypedExpr {
            ty: ExprType::Null,
            node: CoreExpr::Null,
        })),
        Expr::This(_) => Ok(Some(value(CoreType::Class(environment.class), CoreExpr::This))),
        Expr::Var(name) => Ok(variable_rule(environment.scope, name, first)),
        Expr::Paren(inner, _) => expr(environment, inner, first),
        Expr::Not(part, at) => not_expr(environment, part, *at, first),
        Expr::Neg(part, at) => neg_expr(environment, part, *at, first),
        Expr::Binary(op, left, right, at) => {
            binary_expr(environment, *op, left, right, *at, first)
        }
        Expr::Get(receiver, name) => get_expr(environment, receiver, name, first),
        Expr::Call(receiver, name, args) => call_expr(environment, receiver, name, args, first),
        Expr::New(name, args, _) => new_expr(environment, name, args, first),
    }
}

/// An expression in a box. It is boxed at once, so that there is only a box to drop where a later part fails.
#[cycle(expressions)]
pub(crate) fn boxed_expr(
    environment: &Environment,
    e: &Expr,
    first: &mut FirstFault,
) -> Result<Option<BoxedExpr>, NoMemory>
    ensures typed { IfOk result (λ r. option_map boxed_data r ≡ typed_there environment.now (expr_tree e.now)) }
    ensures fault { OnOk result (first.new ≡ type_noted first.old (faults_there environment.now (expr_tree e.now))) }
{
    let Some(made) = expr(environment, e, first)? else {
        return Ok(None);
    };
    let node = Box::new(environment.alloc, made.node)?;
    Ok(Some(BoxedExpr { ty: made.ty, node }))
}

#[cycle(expressions)]
#[inline(never)]
fn not_expr(
    environment: &Environment,
    part: &Expr,
    at: u32,
    first: &mut FirstFault,
) -> Result<Option<TypedExpr>, NoMemory>
    ensures typed { IfOk result (λ r. option_map typed_data r ≡ typed_there environment.now (NotE (expr_tree part.now) at)) }
    ensures fault { OnOk result (first.new ≡ type_noted first.old (faults_there environment.now (NotE (expr_tree part.now) at))) }
{
    let part = boxed_expr(environment, part, first)?;
    Ok(not_rule(at, part, first))
}

#[cycle(expressions)]
#[inline(never)]
fn neg_expr(
    environment: &Environment,
    part: &Expr,
    at: u32,
    first: &mut FirstFault,
) -> Result<Option<TypedExpr>, NoMemory>
    ensures typed { IfOk result (λ r. option_map typed_data r ≡ typed_there environment.now (NegE (expr_tree part.now) at)) }
    ensures fault { OnOk result (first.new ≡ type_noted first.old (faults_there environment.now (NegE (expr_tree part.now) at))) }
{
    let part = boxed_expr(environment, part, first)?;
    Ok(neg_rule(at, part, first))
}

#[cycle(expressions)]
#[inline(never)]
fn binary_expr(
    environment: &Environment,
    op: Op,
    left: &Expr,
    right: &Expr,
    at: u32,
    first: &mut FirstFault,
) -> Result<Option<TypedExpr>, NoMemory>
    ensures typed { IfOk result (λ r. option_map typed_data r ≡ typed_there environment.now (BinaryE op (expr_tree left.now) (expr_tree right.now) at)) }
    ensures fault { OnOk result (first.new ≡ type_noted first.old (faults_there environment.now (BinaryE op (expr_tree left.now) (expr_tree right.now) at))) }
{
    let left = boxed_expr(environment, left, first)?;
    let right = boxed_expr(environment, right, first)?;
    Ok(binary_rule(environment.table, op, at, left, right, first))
}

#[cycle(expressions)]
#[inline(never)]
fn get_expr(
    environment: &Environment,
    receiver: &Expr,
    name: &Name,
    first: &mut FirstFault,
) -> Result<Option<TypedExpr>, NoMemory>
    ensures typed { IfOk result (λ r. option_map typed_data r ≡ typed_there environment.now (GetE (expr_tree receiver.now) name.now)) }
    ensures fault { OnOk result (first.new ≡ type_noted first.old (faults_there environment.now (GetE (expr_tree receiver.now) name.now))) }
{
    let receiver = boxed_expr(environment, receiver, first)?;
    Ok(get_rule(environment.table, name, receiver, first))
}

#[cycle(expressions)]
#[inline(never)]
fn call_expr(
    environment: &Environment,
    receiver: &Expr,
    name: &Name,
    args: &[Expr],
    first: &mut FirstFault,
) -> Result<Option<TypedExpr>, NoMemory>
    ensures typed { IfOk result (λ r. option_map typed_data r ≡ typed_there environment.now (CallE (expr_tree receiver.now) name.now (exprs_from (map expr_tree args.now)))) }
    ensures fault { OnOk result (first.new ≡ type_noted first.old (faults_there environment.now (CallE (expr_tree receiver.now) name.now (exprs_from (map expr_tree args.now))))) }
{
    let receiver = boxed_expr(environment, receiver, first)?;
    let args = arguments(environment, args, first)?;
    call_rule(
        environment.alloc,
        environment.table,
        name,
        receiver,
        args,
        first,
    )
}

#[cycle(expressions)]
#[inline(never)]
fn new_expr(
    environment: &Environment,
    name: &Name,
    args: &[Expr],
    first: &mut FirstFault,
) -> Result<Option<TypedExpr>, NoMemory>
    ensures typed { IfOk result (λ r. option_map typed_data r ≡ typed_there environment.now (NewE name.now (exprs_from (map expr_tree args.now)) 0)) }
    ensures fault { OnOk result (first.new ≡ type_noted first.old (faults_there environment.now (NewE name.now (exprs_from (map expr_tree args.now)) 0))) }
{
    let args = arguments(environment, args, first)?;
    new_rule(environment.alloc, environment.table, name, args, first)
}

#[cycle(expressions)]
fn arguments(
    environment: &Environment,
    args: &[Expr],
    first: &mut FirstFault,
) -> Result<Option<Vec<TypedExpr>>, NoMemory>
    ensures typed { IfOk result (λ r. option_map (λ a. typed_list a.items) r ≡ typed_each environment.now (exprs_from (map expr_tree args.now))) }
    ensures fault { OnOk result (first.new ≡ type_noted first.old (faults_of_each environment.now (exprs_from (map expr_tree args.now)))) }
{
    let mut parts = Gathered::new(environment.alloc);
    for arg in args {
        parts.add(expr(environment, arg, first)?)?;
    }
    Ok(parts.all())
}

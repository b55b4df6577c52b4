//! Statements that hold no other one: the core node of each, where each part has one.
#![tactic(auto, using(crate::proofs::Noting::noted_append))]

ghost use Rattle.std.specs.Prelude.{◌≡◌, None, true, false, option_map, IfOk, OnOk};
ghost use Rattle.classes.specs.Views.{table_data};
ghost use Rattle.core_program.specs.Views as core;
ghost use Rattle.syntax.specs.Trees as tree;
ghost use Rattle.syntax.specs.Views.{expr_tree, stmt_of};
ghost use Rattle.typing.specs.Completion.{locals_in};
ghost use Rattle.typing.specs.Inside.{core_in, faults_in};
ghost use Rattle.typing.specs.Noted.{type_noted};
ghost use Rattle.typing.specs.Rulings.{gain};
ghost use Rattle.typing.specs.Rules.{type_rule};
ghost use Rattle.typing.specs.Stmts.{assignment, declared_type};

use crate::body::{Body, typed};
use crate::first::FirstFault;
use crate::nodes::StmtPart;
use crate::scope::Bound;
use crate::stmt_rules::{
    do_rule, field_target, local_node, local_value, note_declaration, print_rule, put_rule,
    return_rule, set_rule, start_rule, target_rule, type_rule, value_rule,
};
use core_program::CoreStmt;
use std::alloc::AllocError as NoMemory;
use syntax::{Expr, Name, Stmt, TypeName};

/// A statement that declares nothing and can complete.
pub(crate) fn simple(node: Option<CoreStmt>) -> StmtPart
    ensures node { result.node ≡ node }
    ensures locals { result.locals ≡ 0 }
    ensures completes { result.completes ≡ true }
    ensures declared { result.declared ≡ None }
{
    StmtPart {
        node,
        locals: 0,
        completes: true,
        declared: None,
    }
}

/// A declaration of a local.
#[derive(Clone, Copy)]
struct Declaration<'s, 'a> {
    is_final: bool,
    ty: &'s TypeName<'a>,
    name: &'s Name<'a>,
    value: &'s Expr<'a>,
}

fn local(
    body: &Body,
    scope: &[Bound],
    before: usize,
    declaration: &Declaration,
    first: &mut FirstFault,
) -> Result<StmtPart, NoMemory>
    ensures node { IfOk result (λ p. option_map core.stmt_of p.node ≡ core_in body.now scope.now before (tree.LocalS declaration.now.is_final declaration.now.ty.now declaration.now.name.now (expr_tree declaration.now.value.now) 0)) }
    ensures locals { IfOk result (λ p. p.locals ≡ 1) }
    ensures completes { IfOk result (λ p. p.completes ≡ true) }
    ensures declared { IfOk result (λ p. p.declared ≡ gain (type_rule (table_data body.now.table.now) declaration.now.ty.now)) }
    ensures fault { OnOk result (first.new ≡ type_noted first.old (faults_in body.now scope.now before (tree.LocalS declaration.now.is_final declaration.now.ty.now declaration.now.name.now (expr_tree declaration.now.value.now) 0))) }
{
    let name = declaration.name;
    let ty = type_rule(body.table, declaration.ty, first);
    let value = typed(body, scope, declaration.value, first)?;
    let value = local_value(body.table, name.at, &ty, value, first);
    note_declaration(scope, before, name, first);
    let node = local_node(body.first_local, before, declaration.is_final, value);
    Ok(StmtPart {
        node,
        locals: 1,
        completes: true,
        declared: ty,
    })
}

fn set_var(
    body: &Body,
    scope: &[Bound],
    name: &Name,
    value: &Expr,
    at: u32,
    first: &mut FirstFault,
) -> Result<StmtPart, NoMemory>
    ensures node { IfOk result (λ p. option_map core.stmt_of p.node ≡ core_in body.now scope.now 0 (tree.SetVarS name.now (expr_tree value.now) at)) }
    ensures locals { IfOk result (λ p. p.locals ≡ 0) }
    ensures completes { IfOk result (λ p. p.completes ≡ true) }
    ensures declared { IfOk result (λ p. p.declared ≡ None) }
    ensures fault { OnOk result (first.new ≡ type_noted first.old (faults_in body.now scope.now 0 (tree.SetVarS name.now (expr_tree value.now) at))) }
{
    let target = target_rule(scope, name, first);
    let value = typed(body, scope, value, first)?;
    let node = set_rule(body.table, at, target, value, first);
    Ok(simple(node))
}

/// An assignment to a field.
#[derive(Clone, Copy)]
struct FieldAssignment<'s, 'a> {
    receiver: &'s Expr<'a>,
    name: &'s Name<'a>,
    value: &'s Expr<'a>,
    at: u32,
}

fn set_field(
    body: &Body,
    scope: &[Bound],
    assignment: &FieldAssignment,
    first: &mut FirstFault,
) -> Result<StmtPart, NoMemory>
    ensures node { IfOk result (λ p. option_map core.stmt_of p.node ≡ core_in body.now scope.now 0 (tree.SetFieldS (expr_tree assignment.now.receiver.now) assignment.now.name.now (expr_tree assignment.now.value.now) assignment.now.at)) }
    ensures locals { IfOk result (λ p. p.locals ≡ 0) }
    ensures completes { IfOk result (λ p. p.completes ≡ true) }
    ensures declared { IfOk result (λ p. p.declared ≡ None) }
    ensures fault { OnOk result (first.new ≡ type_noted first.old (faults_in body.now scope.now 0 (tree.SetFieldS (expr_tree assignment.now.receiver.now) assignment.now.name.now (expr_tree assignment.now.value.now) assignment.now.at))) }
{
    let receiver = typed(body, scope, assignment.receiver, first)?;
    let target = field_target(body.table, assignment.name, receiver, first);
    let value = typed(body, scope, assignment.value, first)?;
    let node = put_rule(body.table, assignment.at, target, value, first);
    Ok(simple(node))
}

/// A declaration or an assignment. Any other statement counts as an empty one.
pub(crate) fn assign(
    body: &Body,
    scope: &[Bound],
    before: usize,
    s: &Stmt,
    first: &mut FirstFault,
) -> Result<StmtPart, NoMemory>
    ensures node { IfOk result (λ p. option_map core.stmt_of p.node ≡ core_in body.now scope.now before (assignment (stmt_of s.now))) }
    ensures locals { IfOk result (λ p. p.locals ≡ locals_in (assignment (stmt_of s.now))) }
    ensures completes { IfOk result (λ p. p.completes ≡ true) }
    ensures declared { IfOk result (λ p. p.declared ≡ declared_type (table_data body.now.table.now) (assignment (stmt_of s.now))) }
    ensures fault { OnOk result (first.new ≡ type_noted first.old (faults_in body.now scope.now before (assignment (stmt_of s.now)))) }
{
    match s {
        Stmt::Local {
            is_final,
            ty,
            name,
            value,
            at: _,
        } => {
            let declaration = Declaration {
                is_final: *is_final,
                ty,
                name,
                value,
            };
            local(body, scope, before, &declaration, first)
        }
        Stmt::SetVar(name, value, at) => set_var(body, scope, name, value, *at, first),
        Stmt::SetField(receiver, name, value, at) => {
            let assignment = FieldAssignment {
                receiver,
                name,
                value,
                at: *at,
            };
            set_field(body, scope, &assignment, first)
        }
        _ => Ok(simple(Some(CoreStmt::Empty))),
    }
}

pub(crate) fn call(
    body: &Body,
    scope: &[Bound],
    part: &Expr,
    at: u32,
    first: &mut FirstFault,
) -> Result<StmtPart, NoMemory>
    ensures node { IfOk result (λ p. option_map core.stmt_of p.node ≡ core_in body.now scope.now 0 (tree.DoS (expr_tree part.now) at)) }
    ensures locals { IfOk result (λ p. p.locals ≡ 0) }
    ensures completes { IfOk result (λ p. p.completes ≡ true) }
    ensures declared { IfOk result (λ p. p.declared ≡ None) }
    ensures fault { OnOk result (first.new ≡ type_noted first.old (faults_in body.now scope.now 0 (tree.DoS (expr_tree part.now) at))) }
{
    let part = typed(body, scope, part, first)?;
    let node = do_rule(at, part, first);
    Ok(simple(node))
}

pub(crate) fn print(
    body: &Body,
    scope: &[Bound],
    part: &Expr,
    at: u32,
    first: &mut FirstFault,
) -> Result<StmtPart, NoMemory>
    ensures node { IfOk result (λ p. option_map core.stmt_of p.node ≡ core_in body.now scope.now 0 (tree.PrintS (expr_tree part.now) at)) }
    ensures locals { IfOk result (λ p. p.locals ≡ 0) }
    ensures completes { IfOk result (λ p. p.completes ≡ true) }
    ensures declared { IfOk result (λ p. p.declared ≡ None) }
    ensures fault { OnOk result (first.new ≡ type_noted first.old (faults_in body.now scope.now 0 (tree.PrintS (expr_tree part.now) at))) }
{
    let part = typed(body, scope, part, first)?;
    let node = print_rule(at, part, first);
    Ok(simple(node))
}

pub(crate) fn start(
    body: &Body,
    scope: &[Bound],
    part: &Expr,
    at: u32,
    first: &mut FirstFault,
) -> Result<StmtPart, NoMemory>
    ensures node { IfOk result (λ p. option_map core.stmt_of p.node ≡ core_in body.now scope.now 0 (tree.StartS (expr_tree part.now) at)) }
    ensures locals { IfOk result (λ p. p.locals ≡ 0) }
    ensures completes { IfOk result (λ p. p.completes ≡ true) }
    ensures declared { IfOk result (λ p. p.declared ≡ None) }
    ensures fault { OnOk result (first.new ≡ type_noted first.old (faults_in body.now scope.now 0 (tree.StartS (expr_tree part.now) at))) }
{
    let part = typed(body, scope, part, first)?;
    let node = start_rule(body.table, at, part, first);
    Ok(simple(node))
}

fn return_node(
    body: &Body,
    scope: &[Bound],
    value: &Option<Box<Expr>>,
    at: u32,
    first: &mut FirstFault,
) -> Result<Option<CoreStmt>, NoMemory>
    ensures node { IfOk result (λ s. option_map core.stmt_of s ≡ core_in body.now scope.now 0 (tree.ReturnS (option_map (λ b. expr_tree b.value) value.now) at)) }
    ensures fault { OnOk result (first.new ≡ type_noted first.old (faults_in body.now scope.now 0 (tree.ReturnS (option_map (λ b. expr_tree b.value) value.now) at))) }
{
    let Some(value) = value else {
        return Ok(return_rule(at, body.returns, first));
    };
    let value = typed(body, scope, value, first)?;
    Ok(value_rule(body.table, at, body.returns, value, first))
}

pub(crate) fn return_part(
    body: &Body,
    scope: &[Bound],
    value: &Option<Box<Expr>>,
    at: u32,
    first: &mut FirstFault,
) -> Result<StmtPart, NoMemory>
    ensures node { IfOk result (λ p. option_map core.stmt_of p.node ≡ core_in body.now scope.now 0 (tree.ReturnS (option_map (λ b. expr_tree b.value) value.now) at)) }
    ensures locals { IfOk result (λ p. p.locals ≡ 0) }
    ensures completes { IfOk result (λ p. p.completes ≡ false) }
    ensures declared { IfOk result (λ p. p.declared ≡ None) }
    ensures fault { OnOk result (first.new ≡ type_noted first.old (faults_in body.now scope.now 0 (tree.ReturnS (option_map (λ b. expr_tree b.value) value.now) at))) }
{
    let node = return_node(body, scope, value, at, first)?;
    Ok(StmtPart {
        node,
        locals: 0,
        completes: false,
        declared: None,
    })
}

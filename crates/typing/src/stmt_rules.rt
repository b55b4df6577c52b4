//! The rule of each kind of statement. A part comes with its type, if it has one; a fault is noted.

ghost use Rattle.std.specs.Prelude.{◌≡◌, ◌+◌, ◌++◌, ◌&&◌, ℕ, Bool, None, nat_lt, option_map, if◌then◌else◌};
ghost use Rattle.classes.specs.Views.{table_data};
ghost use Rattle.core_program.specs.Core.{LocalS};
ghost use Rattle.core_program.specs.Typed.{is_call_or_new, gives_value, most_locals};
ghost use Rattle.core_program.specs.Views.{expr_of, stmt_of};
ghost use Rattle.typing.specs.Names.{variable_of};
ghost use Rattle.typing.specs.Noted.{type_noted};
ghost use Rattle.typing.specs.Rulings.{gain, loss, ruled, broken, both};
ghost use Rattle.typing.specs.Rules.{type_rule, fit_rule};
ghost use Rattle.typing.specs.Stmts.{local_rule, target_rule, set_rule, field_target, put_rule, do_rule, condition_rule, return_rule, value_rule, print_rule, is_runnable, start_rule, too_many, redeclared, return_faults};
ghost use Rattle.typing.specs.Views.{boxed_data, boxed_expr, type_data, target_data};

use crate::fault::TypeFault;
use crate::first::FirstFault;
use crate::rules::field_rule;
use crate::scope::{Bound, Slot, find};
use crate::types::{BoxedExpr, ExprType};
use classes::{ClassTable, FieldEntry};
use core_program::{CoreExpr, CoreStmt, CoreType};
use paths::{ClassId, FieldId};
use syntax::{Name, TypeName};

/// How many locals a method may declare.
pub const MOST_LOCALS: usize = 64;

/// The type that is written.
pub fn type_rule(table: &ClassTable, ty: &TypeName, first: &mut FirstFault) -> Option<CoreType>
    ensures ty { result ≡ gain (type_rule (table_data table.now) ty.now) }
    ensures fault { first.new ≡ type_noted first.old (loss (type_rule (table_data table.now) ty.now)) }
{
    match ty {
        TypeName::Int => Some(CoreType::Int),
        TypeName::Boolean => Some(CoreType::Boolean),
        TypeName::Class(name) => {
            let Some(class) = table.class_named(name.text) else {
                first.note(TypeFault::UnknownName(name.at));
                return None;
            };
            Some(CoreType::Class(class))
        }
    }
}

/// A value for a place of this type.
fn fit_rule(
    table: &ClassTable,
    at: u32,
    ty: CoreType,
    value: BoxedExpr,
    first: &mut FirstFault,
) -> Option<Box<CoreExpr>>
    ensures node { option_map boxed_expr result ≡ gain (fit_rule (table_data table.now) at ty (boxed_data value)) }
    ensures fault { first.new ≡ type_noted first.old (loss (fit_rule (table_data table.now) at ty (boxed_data value))) }
{
    if !value.ty.fits(table, ExprType::Value(ty)) {
        first.note(TypeFault::NoRule(at));
        return None;
    }
    Some(value.node)
}

/// The type and the value of a declaration.
pub fn local_value(
    table: &ClassTable,
    at: u32,
    ty: &Option<CoreType>,
    value: Option<BoxedExpr>,
    first: &mut FirstFault,
) -> Option<(CoreType, Box<CoreExpr>)>
    ensures node { (slot : ℕ) (is_final : Bool) → option_map (λ p. LocalS slot is_final p.0 (boxed_expr p.1)) result ≡ ruled (local_rule (table_data table.now) slot is_final at) (both ty.now (option_map boxed_data value)) }
    ensures fault { (slot : ℕ) (is_final : Bool) → first.new ≡ type_noted first.old (broken (local_rule (table_data table.now) slot is_final at) (both ty.now (option_map boxed_data value))) }
{
    let Some(ty) = ty else {
        return None;
    };
    let value = fit_rule(table, at, *ty, value?, first)?;
    Some((*ty, value))
}

/// The node of a declaration, where so many locals stand before it. There is none past the limit.
pub fn local_node(
    first_local: u8,
    before: usize,
    is_final: bool,
    value: Option<(CoreType, Box<CoreExpr>)>,
) -> Option<CoreStmt>
    ensures { option_map stmt_of result ≡ (if nat_lt before most_locals then option_map (λ p. LocalS (first_local + before) is_final p.0 (boxed_expr p.1)) value else None) }
{
    if before >= MOST_LOCALS {
        return None;
    }
    let (ty, value) = value?;
    let slot = first_local as u16 + before as u16;
    Some(CoreStmt::Local {
        slot,
        is_final,
        ty,
        value,
    })
}

fn note_too_many(before: usize, name: &Name, first: &mut FirstFault)
    ensures { first.new ≡ type_noted first.old (too_many before name.now) }
{
    if before >= MOST_LOCALS {
        first.note(TypeFault::TooManyLocals(name.at));
    }
}

fn note_redeclared(scope: &[Bound], name: &Name, first: &mut FirstFault)
    ensures { first.new ≡ type_noted first.old (redeclared scope.now name.now) }
{
    if find(scope, name.text).is_some() {
        first.note(TypeFault::Redeclared(name.at));
    }
}

/// What is wrong with the name of a declaration, where so many locals stand before it.
#[tactic(auto, using(crate::proofs::Noting::noted_append))]
pub fn note_declaration(scope: &[Bound], before: usize, name: &Name, first: &mut FirstFault)
    ensures { first.new ≡ type_noted first.old (too_many before name.now ++ redeclared scope.now name.now) }
{
    note_too_many(before, name, first);
    note_redeclared(scope, name, first);
}

/// The variable that is assigned.
pub fn target_rule(scope: &[Bound], name: &Name, first: &mut FirstFault) -> Option<Slot>
    ensures variable { option_map variable_of result ≡ gain (target_rule scope.now name.now) }
    ensures fault { first.new ≡ type_noted first.old (loss (target_rule scope.now name.now)) }
{
    let Some(variable) = find(scope, name.text) else {
        first.note(TypeFault::UnknownName(name.at));
        return None;
    };
    if variable.is_final {
        first.note(TypeFault::FinalAssigned(name.at));
        return None;
    }
    Some(variable)
}

/// An assignment to a variable.
pub fn set_rule(
    table: &ClassTable,
    at: u32,
    target: Option<Slot>,
    value: Option<BoxedExpr>,
    first: &mut FirstFault,
) -> Option<CoreStmt>
    ensures node { option_map stmt_of result ≡ ruled (set_rule (table_data table.now) at) (both (option_map variable_of target) (option_map boxed_data value)) }
    ensures fault { first.new ≡ type_noted first.old (broken (set_rule (table_data table.now) at) (both (option_map variable_of target) (option_map boxed_data value))) }
{
    let target = target?;
    let value = fit_rule(table, at, target.ty, value?, first)?;
    Some(CoreStmt::SetVar(target.slot, value))
}

/// The receiver and the field that are assigned.
pub fn field_target<'t, 'a>(
    table: &'t ClassTable<'a>,
    name: &Name,
    receiver: Option<BoxedExpr>,
    first: &mut FirstFault,
) -> Option<(Box<CoreExpr>, (FieldId, &'t FieldEntry<'a>))>
    ensures target { option_map target_data result ≡ ruled (field_target (table_data table.now) name.now) (option_map boxed_data receiver) }
    ensures fault { first.new ≡ type_noted first.old (broken (field_target (table_data table.now) name.now) (option_map boxed_data receiver)) }
{
    let receiver = receiver?;
    let Some((id, field)) = field_rule(table, name, receiver.ty, first) else {
        return None;
    };
    if field.is_final {
        first.note(TypeFault::FinalAssigned(name.at));
        return None;
    }
    Some((receiver.node, (id, field)))
}

/// An assignment to a field.
pub fn put_rule(
    table: &ClassTable,
    at: u32,
    target: Option<(Box<CoreExpr>, (FieldId, &FieldEntry))>,
    value: Option<BoxedExpr>,
    first: &mut FirstFault,
) -> Option<CoreStmt>
    ensures node { option_map stmt_of result ≡ ruled (put_rule (table_data table.now) at) (both (option_map target_data target.entry) (option_map boxed_data value)) }
    ensures fault { first.new ≡ type_noted first.old (broken (put_rule (table_data table.now) at) (both (option_map target_data target.entry) (option_map boxed_data value))) }
{
    let Some((receiver, (id, field))) = target else {
        return None;
    };
    let value = fit_rule(table, at, field.ty, value?, first)?;
    Some(CoreStmt::SetField(receiver, id, value))
}

fn is_call_or_new(node: &CoreExpr) -> bool
    ensures { result ≡ is_call_or_new (expr_of node.now) }
{
    match node {
        CoreExpr::Call(..) | CoreExpr::New(..) => true,
        _ => false,
    }
}

fn gives_value(ty: ExprType) -> bool
    ensures { result ≡ gives_value (type_data ty) }
{
    match ty {
        ExprType::Value(_) | ExprType::Null => true,
        ExprType::Void => false,
    }
}

/// A call or a `new` as a statement.
pub fn do_rule(at: u32, part: Option<BoxedExpr>, first: &mut FirstFault) -> Option<CoreStmt>
    ensures node { option_map stmt_of result ≡ ruled (do_rule at) (option_map boxed_data part) }
    ensures fault { first.new ≡ type_noted first.old (broken (do_rule at) (option_map boxed_data part)) }
{
    let part = part?;
    if !is_call_or_new(&part.node) {
        first.note(TypeFault::NoRule(at));
        return None;
    }
    Some(CoreStmt::Do(part.node, gives_value(part.ty)))
}

/// The condition of `if` or `while` is a `boolean`.
pub fn condition_rule(
    at: u32,
    part: Option<BoxedExpr>,
    first: &mut FirstFault,
) -> Option<Box<CoreExpr>>
    ensures node { option_map boxed_expr result ≡ ruled (condition_rule at) (option_map boxed_data part) }
    ensures fault { first.new ≡ type_noted first.old (broken (condition_rule at) (option_map boxed_data part)) }
{
    let part = part?;
    if !part.ty.is_boolean() {
        first.note(TypeFault::NoRule(at));
        return None;
    }
    Some(part.node)
}

/// A return without a value.
pub fn return_rule(at: u32, returns: Option<CoreType>, first: &mut FirstFault) -> Option<CoreStmt>
    ensures node { option_map stmt_of result ≡ gain (return_rule at returns) }
    ensures fault { first.new ≡ type_noted first.old (loss (return_rule at returns)) }
{
    if returns.is_some() {
        first.note(TypeFault::NoRule(at));
        return None;
    }
    Some(CoreStmt::Return(None))
}

/// A return of a value.
pub fn value_rule(
    table: &ClassTable,
    at: u32,
    returns: Option<CoreType>,
    part: Option<BoxedExpr>,
    first: &mut FirstFault,
) -> Option<CoreStmt>
    ensures node { option_map stmt_of result ≡ ruled (value_rule (table_data table.now) at returns) (option_map boxed_data part) }
    ensures fault { first.new ≡ type_noted first.old (broken (value_rule (table_data table.now) at returns) (option_map boxed_data part)) }
{
    let part = part?;
    let Some(ty) = returns else {
        first.note(TypeFault::NoRule(at));
        return None;
    };
    let value = fit_rule(table, at, ty, part, first)?;
    Some(CoreStmt::Return(Some(value)))
}

/// What is printed is an `int`.
pub fn print_rule(at: u32, part: Option<BoxedExpr>, first: &mut FirstFault) -> Option<CoreStmt>
    ensures node { option_map stmt_of result ≡ ruled (print_rule at) (option_map boxed_data part) }
    ensures fault { first.new ≡ type_noted first.old (broken (print_rule at) (option_map boxed_data part)) }
{
    let part = part?;
    if !part.ty.is_int() {
        first.note(TypeFault::NoRule(at));
        return None;
    }
    Some(CoreStmt::Print(part.node))
}

/// Whether there is a class, and it counts as `implements Runnable`.
fn is_runnable(table: &ClassTable, class: Option<ClassId>) -> bool
    ensures { result ≡ is_runnable (table_data table.now) class }
{
    let Some(class) = class else {
        return false;
    };
    match table.classes().get(class.0 as usize) {
        Some(entry) => entry.runnable,
        None => false,
    }
}

/// What a thread is started on is an object of a class that counts as `implements Runnable`.
pub fn start_rule(
    table: &ClassTable,
    at: u32,
    part: Option<BoxedExpr>,
    first: &mut FirstFault,
) -> Option<CoreStmt>
    ensures node { option_map stmt_of result ≡ ruled (start_rule (table_data table.now) at) (option_map boxed_data part) }
    ensures fault { first.new ≡ type_noted first.old (broken (start_rule (table_data table.now) at) (option_map boxed_data part)) }
{
    let part = part?;
    if !is_runnable(table, part.ty.class()) {
        first.note(TypeFault::NoRule(at));
        return None;
    }
    Some(CoreStmt::Start(part.node))
}

/// Notes that the body of a method with a result can complete. Its closing brace stands at `at`.
pub fn note_missing_return(returns: bool, completes: bool, at: u32, first: &mut FirstFault)
    ensures { first.new ≡ type_noted first.old (return_faults (returns && completes) at) }
{
    if returns && completes {
        first.note(TypeFault::MissingReturn(at));
    }
}

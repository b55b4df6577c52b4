//! The rule of each kind of expression. A part comes with its type, if it has one; a fault is noted.

ghost use Rattle.std.specs.Prelude.{◌≡◌, option_map};
ghost use Rattle.classes.specs.Views.{table_data};
ghost use Rattle.core_program.specs.Types.{ValueT};
ghost use Rattle.core_program.specs.Views.{expr_of};
ghost use Rattle.typing.specs.Exprs.{variable_rule};
ghost use Rattle.typing.specs.Noted.{type_noted};
ghost use Rattle.typing.specs.Rulings.{gain, loss, ruled, broken, both};
ghost use Rattle.typing.specs.Rules.{typed, number_rule, least_typed, not_rule, neg_rule, operator_rule, logical_node, logical_rule, binary_rule, field_rule, class_rule, get_rule};
ghost use Rattle.typing.specs.Views.{typed_data, boxed_data, type_data, field_found};

use crate::fault::TypeFault;
use crate::first::FirstFault;
use crate::lookup::field_named;
use crate::scope::{Bound, find};
use crate::types::{BoxedExpr, ExprType, TypedExpr, binary_type};
use classes::{ClassTable, FieldEntry};
use core_program::{CoreExpr, CoreOp, CoreType};
use paths::{ClassId, FieldId};
use syntax::{Name, Op};

/// An expression of a value's type.
pub fn value(ty: CoreType, node: CoreExpr) -> TypedExpr
    ensures { typed_data result ≡ typed (ValueT ty) (expr_of node) }
{
    TypedExpr {
        ty: ExprType::Value(ty),
        node,
    }
}

/// A number is an `int`, where it is at most 2147483647.
pub fn number_rule(number: u32, at: u32, first: &mut FirstFault) -> Option<TypedExpr>
    ensures typed { option_map typed_data result ≡ gain (number_rule number at) }
    ensures fault { first.new ≡ type_noted first.old (loss (number_rule number at)) }
{
    match i32::try_from(number) {
        Ok(number) => Some(value(CoreType::Int, CoreExpr::Int(number))),
        Err(_) => {
            first.note(TypeFault::NoRule(at));
            None
        }
    }
}

/// The least number is an `int`.
pub fn least_number() -> TypedExpr
    ensures { typed_data result ≡ least_typed }
{
    value(CoreType::Int, CoreExpr::Int(i32::MIN))
}

/// A name is the variable of this name that is in scope.
pub fn variable_rule(scope: &[Bound], name: &Name, first: &mut FirstFault) -> Option<TypedExpr>
    ensures typed { option_map typed_data result ≡ gain (variable_rule scope.now name.now) }
    ensures fault { first.new ≡ type_noted first.old (loss (variable_rule scope.now name.now)) }
{
    let Some(variable) = find(scope, name.text) else {
        first.note(TypeFault::UnknownName(name.at));
        return None;
    };
    Some(value(
        variable.ty,
        CoreExpr::Var {
            slot: variable.slot,
            is_final: variable.is_final,
            ty: variable.ty,
        },
    ))
}

/// `!` takes a `boolean` and gives one.
pub fn not_rule(at: u32, part: Option<BoxedExpr>, first: &mut FirstFault) -> Option<TypedExpr>
    ensures typed { option_map typed_data result ≡ ruled (not_rule at) (option_map boxed_data part) }
    ensures fault { first.new ≡ type_noted first.old (broken (not_rule at) (option_map boxed_data part)) }
{
    let part = part?;
    if !part.ty.is_boolean() {
        first.note(TypeFault::NoRule(at));
        return None;
    }
    Some(value(CoreType::Boolean, CoreExpr::Not(part.node)))
}

/// `-` takes an `int` and gives one.
pub fn neg_rule(at: u32, part: Option<BoxedExpr>, first: &mut FirstFault) -> Option<TypedExpr>
    ensures typed { option_map typed_data result ≡ ruled (neg_rule at) (option_map boxed_data part) }
    ensures fault { first.new ≡ type_noted first.old (broken (neg_rule at) (option_map boxed_data part)) }
{
    let part = part?;
    if !part.ty.is_int() {
        first.note(TypeFault::NoRule(at));
        return None;
    }
    Some(value(CoreType::Int, CoreExpr::Neg(part.node)))
}

fn operator_rule(
    table: &ClassTable,
    op: CoreOp,
    at: u32,
    left: BoxedExpr,
    right: BoxedExpr,
    first: &mut FirstFault,
) -> Option<TypedExpr>
    ensures typed { option_map typed_data result ≡ gain (operator_rule (table_data table.now) op at (boxed_data left, boxed_data right)) }
    ensures fault { first.new ≡ type_noted first.old (loss (operator_rule (table_data table.now) op at (boxed_data left, boxed_data right))) }
{
    let Some(ty) = binary_type(table, op, left.ty, right.ty) else {
        first.note(TypeFault::NoRule(at));
        return None;
    };
    Some(TypedExpr {
        ty,
        node: CoreExpr::Binary(op, left.node, right.node),
    })
}

/// `&&` where it is asked for, else `||`.
fn logical_rule(
    is_and: bool,
    at: u32,
    left: BoxedExpr,
    right: BoxedExpr,
    first: &mut FirstFault,
) -> Option<TypedExpr>
    ensures typed { option_map typed_data result ≡ gain (logical_rule (logical_node is_and) at (boxed_data left, boxed_data right)) }
    ensures fault { first.new ≡ type_noted first.old (loss (logical_rule (logical_node is_and) at (boxed_data left, boxed_data right))) }
{
    if !(left.ty.is_boolean() && right.ty.is_boolean()) {
        first.note(TypeFault::NoRule(at));
        return None;
    }
    let node = if is_and {
        CoreExpr::And(left.node, right.node)
    } else {
        CoreExpr::Or(left.node, right.node)
    };
    Some(value(CoreType::Boolean, node))
}

/// The rule of a sign between two parts that have types.
fn sign_rule(
    table: &ClassTable,
    op: Op,
    at: u32,
    left: BoxedExpr,
    right: BoxedExpr,
    first: &mut FirstFault,
) -> Option<TypedExpr>
    ensures typed { option_map typed_data result ≡ gain (binary_rule (table_data table.now) op at (boxed_data left, boxed_data right)) }
    ensures fault { first.new ≡ type_noted first.old (loss (binary_rule (table_data table.now) op at (boxed_data left, boxed_data right))) }
{
    match op {
        Op::Or => logical_rule(false, at, left, right, first),
        Op::And => logical_rule(true, at, left, right, first),
        Op::Eq => operator_rule(table, CoreOp::Eq, at, left, right, first),
        Op::Ne => operator_rule(table, CoreOp::Ne, at, left, right, first),
        Op::Lt => operator_rule(table, CoreOp::Lt, at, left, right, first),
        Op::Le => operator_rule(table, CoreOp::Le, at, left, right, first),
        Op::Gt => operator_rule(table, CoreOp::Gt, at, left, right, first),
        Op::Ge => operator_rule(table, CoreOp::Ge, at, left, right, first),
        Op::Add => operator_rule(table, CoreOp::Add, at, left, right, first),
        Op::Sub => operator_rule(table, CoreOp::Sub, at, left, right, first),
        Op::Mul => operator_rule(table, CoreOp::Mul, at, left, right, first),
        Op::Div => operator_rule(table, CoreOp::Div, at, left, right, first),
        Op::Rem => operator_rule(table, CoreOp::Rem, at, left, right, first),
    }
}

/// A binary operator gives what its kind asks of the types of its operands; nothing where one of these has no type.
pub fn binary_rule(
    table: &ClassTable,
    op: Op,
    at: u32,
    left: Option<BoxedExpr>,
    right: Option<BoxedExpr>,
    first: &mut FirstFault,
) -> Option<TypedExpr>
    ensures typed { option_map typed_data result ≡ ruled (binary_rule (table_data table.now) op at) (both (option_map boxed_data left) (option_map boxed_data right)) }
    ensures fault { first.new ≡ type_noted first.old (broken (binary_rule (table_data table.now) op at) (both (option_map boxed_data left) (option_map boxed_data right))) }
{
    sign_rule(table, op, at, left?, right?, first)
}

/// The field that a name means for a receiver of this type.
pub fn field_rule<'t, 'a>(
    table: &'t ClassTable<'a>,
    name: &Name,
    receiver: ExprType,
    first: &mut FirstFault,
) -> Option<(FieldId, &'t FieldEntry<'a>)>
    ensures field { option_map field_found result ≡ gain (field_rule (table_data table.now) name.now (type_data receiver)) }
    ensures fault { first.new ≡ type_noted first.old (loss (field_rule (table_data table.now) name.now (type_data receiver))) }
{
    let Some(class) = receiver.class() else {
        first.note(TypeFault::NoRule(name.at));
        return None;
    };
    let found = field_named(table, class, name.text);
    if found.is_none() {
        first.note(TypeFault::UnknownName(name.at));
    }
    found
}

/// The class that a name means.
pub fn class_rule(table: &ClassTable, name: &Name, first: &mut FirstFault) -> Option<ClassId>
    ensures class { result ≡ gain (class_rule (table_data table.now) name.now) }
    ensures fault { first.new ≡ type_noted first.old (loss (class_rule (table_data table.now) name.now)) }
{
    let found = table.class_named(name.text);
    if found.is_none() {
        first.note(TypeFault::UnknownName(name.at));
    }
    found
}

/// A field is read of an object whose class has it, in itself or from above.
pub fn get_rule(
    table: &ClassTable,
    name: &Name,
    receiver: Option<BoxedExpr>,
    first: &mut FirstFault,
) -> Option<TypedExpr>
    ensures typed { option_map typed_data result ≡ ruled (get_rule (table_data table.now) name.now) (option_map boxed_data receiver) }
    ensures fault { first.new ≡ type_noted first.old (broken (get_rule (table_data table.now) name.now) (option_map boxed_data receiver)) }
{
    let receiver = receiver?;
    let Some((id, field)) = field_rule(table, name, receiver.ty, first) else {
        return None;
    };
    Some(value(field.ty, CoreExpr::Get(receiver.node, id)))
}

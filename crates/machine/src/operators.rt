//! Values: what one of another kind is read as, and the results of operators.
ghost use Rattle.std.specs.Prelude.{◌≡◌, reverse, int_rem};
ghost use Rattle.std.specs.Int.{w32, int_wrapping_div};
ghost use Rattle.state.specs.Values.{as_int, as_truth, address_of, value_eq, unary_value, unless_zero, binary_value, top, dropped};

use core_program::{CoreOp, UnaryOp};
use state::{Address, Value};

/// An int; another value reads as 0.
pub fn as_int(v: Value) -> i32
    ensures { result ≡ as_int v }
{
    match v {
        Value::Int(n) => n,
        _ => 0,
    }
}

/// A boolean; another value reads as false.
pub fn as_truth(v: Value) -> bool
    ensures { result ≡ as_truth v }
{
    match v {
        Value::Truth(b) => b,
        _ => false,
    }
}

/// The address that a value refers to.
pub fn address_of(v: Value) -> Option<Address>
    ensures { result ≡ address_of v }
{
    match v {
        Value::Ref(a) => Some(a),
        _ => None,
    }
}

/// Whether two values are the same.
fn value_eq(a: Value, b: Value) -> bool
    ensures { result ≡ value_eq a b }
{
    match (a, b) {
        (Value::Int(x), Value::Int(y)) => x == y,
        (Value::Truth(x), Value::Truth(y)) => x == y,
        (Value::Null, Value::Null) => true,
        (Value::Ref(x), Value::Ref(y)) => x.thread == y.thread && x.count == y.count,
        _ => false,
    }
}

/// What an operator gives of one value.
pub fn unary_value(op: UnaryOp, v: Value) -> Value
    ensures { result ≡ unary_value op v }
{
    match op {
        UnaryOp::Not => Value::Truth(!as_truth(v)),
        UnaryOp::Neg => Value::Int(as_int(v).wrapping_neg()),
    }
}

/// A quotient, where the divisor isn't 0.
fn quotient(x: i32, y: i32) -> Option<Value>
    ensures { result ≡ unless_zero y (int_wrapping_div w32 x y) }
{
    if y == 0 {
        None
    } else {
        Some(Value::Int(x.wrapping_div(y)))
    }
}

/// A remainder, where the divisor isn't 0.
fn remainder(x: i32, y: i32) -> Option<Value>
    ensures { result ≡ unless_zero y (int_rem x y) }
{
    if y == 0 {
        None
    } else {
        Some(Value::Int(x.wrapping_rem(y)))
    }
}

/// What an operator gives of two values; none for a zero divisor.
pub fn binary_value(op: CoreOp, a: Value, b: Value) -> Option<Value>
    ensures { result ≡ binary_value op a b }
{
    match op {
        CoreOp::Eq => Some(Value::Truth(value_eq(a, b))),
        CoreOp::Ne => Some(Value::Truth(!value_eq(a, b))),
        CoreOp::Lt => Some(Value::Truth(as_int(a) < as_int(b))),
        CoreOp::Le => Some(Value::Truth(as_int(a) <= as_int(b))),
        CoreOp::Gt => Some(Value::Truth(as_int(a) > as_int(b))),
        CoreOp::Ge => Some(Value::Truth(as_int(a) >= as_int(b))),
        CoreOp::Add => Some(Value::Int(as_int(a).wrapping_add(as_int(b)))),
        CoreOp::Sub => Some(Value::Int(as_int(a).wrapping_sub(as_int(b)))),
        CoreOp::Mul => Some(Value::Int(as_int(a).wrapping_mul(as_int(b)))),
        CoreOp::Div => quotient(as_int(a), as_int(b)),
        CoreOp::Rem => remainder(as_int(a), as_int(b)),
    }
}

/// The operand under the topmost n, which stand last; a missing one reads as null.
pub fn operand(operands: &[Value], n: usize) -> Value
    ensures { result ≡ top (dropped n (reverse operands.now)) }
{
    if n < operands.len() {
        operands[operands.len() - 1 - n]
    } else {
        Value::Null
    }
}

//! Types of values, and operators.
use paths::ClassId;

/// The type of a field, parameter, local or result.
#[derive(Clone, Copy, PartialEq, Eq, Debug)]
pub enum CoreType {
    Int,
    Boolean,
    Class(ClassId),
}

/// An operator on two values. `And` and `Or`, which may skip their second part, are expressions of their own.
#[derive(Clone, Copy, PartialEq, Eq, Debug)]
pub enum CoreOp {
    Eq,
    Ne,
    Lt,
    Le,
    Gt,
    Ge,
    Add,
    Sub,
    Mul,
    Div,
    Rem,
}

/// An operator on one value.
#[derive(Clone, Copy, PartialEq, Eq, Debug)]
pub enum UnaryOp {
    Not,
    Neg,
}

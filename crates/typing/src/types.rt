//! Types of expressions, and expressions with their types.

ghost use Rattle.std.specs.Prelude.{◌≡◌, option_map};
ghost use Rattle.classes.specs.Table.{is_of_kind};
ghost use Rattle.classes.specs.Views.{table_data};
ghost use Rattle.core_program.specs.declared.types.CoreType.TheVariants as type;
ghost use Rattle.core_program.specs.Types.{ValueT, fits, type_fits, binary_type};
ghost use Rattle.typing.specs.Rules.{is_int, is_boolean, receiver_class, class_of_core_type};
ghost use Rattle.typing.specs.Views.{type_data};

use classes::ClassTable;
use core_program::{CoreExpr, CoreOp, CoreType};
use paths::ClassId;

/// The type of an expression: that of a value, that of `null`, or void.
#[derive(Clone, Copy, Debug)]
pub enum ExprType {
    Value(CoreType),
    Null,
    Void,
}

/// An expression of the core program with its type.
#[derive(Drop)]
pub struct TypedExpr {
    pub ty: ExprType,
    pub node: CoreExpr,
}

/// A part of a node: an expression of the core program in a box, with its type.
#[derive(Drop)]
pub struct BoxedExpr {
    pub ty: ExprType,
    pub node: Box<CoreExpr>,
}

/// The class of an object's type.
pub fn class_in(ty: CoreType) -> Option<ClassId>
    ensures { result ≡ class_of_core_type ty }
{
    match ty {
        CoreType::Class(class) => Some(class),
        CoreType::Int | CoreType::Boolean => None,
    }
}

impl ExprType {
    /// Whether a value of this type is an `int`.
    pub fn is_int(self) -> bool
        ensures { result ≡ is_int (type_data self) }
    {
        matches!(self, ExprType::Value(CoreType::Int))
    }

    /// Whether a value of this type is a `boolean`.
    pub fn is_boolean(self) -> bool
        ensures { result ≡ is_boolean (type_data self) }
    {
        matches!(self, ExprType::Value(CoreType::Boolean))
    }

    /// The class of a receiver of this type.
    pub fn class(self) -> Option<ClassId>
        ensures { result ≡ receiver_class (type_data self) }
    {
        match self {
            ExprType::Value(ty) => class_in(ty),
            ExprType::Null | ExprType::Void => None,
        }
    }

    /// Whether this type fits another: a class fits itself and its ancestors.
    pub fn fits(self, table: &ClassTable, other: ExprType) -> bool
        ensures { result ≡ fits (is_of_kind (table_data table.now)) (type_data self) (type_data other) }
    {
        match (self, other) {
            (ExprType::Value(ty), ExprType::Value(other)) => type_fits(table, ty, other),
            (ExprType::Null, ExprType::Null) => true,
            (ExprType::Null, ExprType::Value(other)) => class_in(other).is_some(),
            _ => false,
        }
    }
}

fn type_fits(table: &ClassTable, ty: CoreType, other: CoreType) -> bool
    ensures { result ≡ type_fits (is_of_kind (table_data table.now)) ty other }
{
    match ty {
        CoreType::Int => matches!(other, CoreType::Int),
        CoreType::Boolean => matches!(other, CoreType::Boolean),
        CoreType::Class(class) => class_fits(table, class, other),
    }
}

fn class_fits(table: &ClassTable, class: ClassId, other: CoreType) -> bool
    ensures { result ≡ type_fits (is_of_kind (table_data table.now)) (type.Class class) other }
{
    match other {
        CoreType::Class(other) => table.is_kind_of(class, other),
        CoreType::Int | CoreType::Boolean => false,
    }
}

/// The type that an operator on two values gives.
pub fn binary_type(
    table: &ClassTable,
    op: CoreOp,
    left: ExprType,
    right: ExprType,
) -> Option<ExprType>
    ensures { option_map type_data result ≡ binary_type (is_of_kind (table_data table.now)) op (type_data left) (type_data right) }
{
    match op {
        CoreOp::Eq | CoreOp::Ne => of_equals(left.fits(table, right) || right.fits(table, left)),
        CoreOp::Lt | CoreOp::Le | CoreOp::Gt | CoreOp::Ge => of_ints(
            CoreType::Boolean,
            left,
            right,
        ),
        CoreOp::Add | CoreOp::Sub | CoreOp::Mul | CoreOp::Div | CoreOp::Rem => {
            of_ints(CoreType::Int, left, right)
        }
    }
}

ghost use Rattle.core_program.specs.Types.{of_equals, of_ints};

fn of_equals(equal: bool) -> Option<ExprType>
    ensures { option_map type_data result ≡ of_equals equal }
{
    if equal {
        Some(ExprType::Value(CoreType::Boolean))
    } else {
        None
    }
}

fn of_ints(ty: CoreType, left: ExprType, right: ExprType) -> Option<ExprType>
    ensures { option_map type_data result ≡ of_ints (ValueT ty) (type_data left) (type_data right) }
{
    match (left, right) {
        (ExprType::Value(CoreType::Int), ExprType::Value(CoreType::Int)) => Some(ExprType::Value(
            ty,
        )),
        _ => None,
    }
}

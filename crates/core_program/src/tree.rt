//! Expressions and statements of the core program.
use crate::types::{CoreOp, CoreType};
use paths::{ClassId, FieldId, MethodId, Path};

/// An expression. A variable carries the finality and type of its slot.
#[derive(Drop)]
pub enum CoreExpr {
    Int(i32),
    Truth(bool),
    Null,
    This,
    Var {
        slot: u16,
        is_final: bool,
        ty: CoreType,
    },
    Not(Box<CoreExpr>),
    Neg(Box<CoreExpr>),
    Binary(CoreOp, Box<CoreExpr>, Box<CoreExpr>),
    And(Box<CoreExpr>, Box<CoreExpr>),
    Or(Box<CoreExpr>, Box<CoreExpr>),
    Get(Box<CoreExpr>, FieldId),
    Call(Box<CoreExpr>, MethodId, Vec<CoreExpr>),
    New(ClassId, Vec<CoreExpr>),
}

/// A statement. `Do` has the flag `true` where it drops a result. A missing `else` is `Empty`.
#[derive(Drop)]
pub enum CoreStmt {
    Empty,
    Block(Vec<CoreStmt>),
    Local {
        slot: u16,
        is_final: bool,
        ty: CoreType,
        value: Box<CoreExpr>,
    },
    SetVar(u16, Box<CoreExpr>),
    SetField(Box<CoreExpr>, FieldId, Box<CoreExpr>),
    Do(Box<CoreExpr>, bool),
    If(Box<CoreExpr>, Box<CoreStmt>, Box<CoreStmt>),
    While(Box<CoreExpr>, Box<CoreStmt>),
    Sync(Path, Box<CoreStmt>),
    Return(Option<Box<CoreExpr>>),
    Print(Box<CoreExpr>),
    Start(Box<CoreExpr>),
}

//! The trees of programs. Offsets count bytes of the source from 0.

use std::marker::Model;

/// How high a method body may be, which counts as one block.
pub const MOST_HEIGHT: u32 = 64;

/// A name, seen in contracts with its text as bytes. `text` is a slice of the source, and `at` the offset of its first
/// byte.
#[derive(Clone, Debug, Drop)]
pub struct Name<'a> {
    pub text: &'a str,
    pub at: u32,
}

impl<'a> Model for Name<'a> {
    ghost use Rattle.syntax.specs.Seen.{SeenName};

    ghost Value = { SeenName };

    ghost view = { λ n. record { text = n.text.now; at = n.at } };
}

/// The binary operators, from the loosest to the tightest.
#[derive(Clone, Copy, Debug, PartialEq, Eq)]
pub enum Op {
    Or,
    And,
    Eq,
    Ne,
    Lt,
    Le,
    Gt,
    Ge,
    Add,
    Sub,
    Mul,
    Div,
    Rem,
}

/// A type as it is written.
#[derive(Drop)]
pub enum TypeName<'a> {
    Int,
    Boolean,
    Class(Name<'a>),
}

/// A parameter of a method or a constructor. A constructor's parameter is never final, whatever its text says.
#[derive(Drop)]
pub struct Param<'a> {
    pub is_final: bool,
    pub ty: TypeName<'a>,
    pub name: Name<'a>,
}

/// A lock expression: a variable, or `this` where there is no root, and the fields that follow.
/// `at` is the offset of its first token.
#[derive(Drop)]
pub struct Lock<'a> {
    pub root: Option<Name<'a>>,
    pub fields: Vec<Name<'a>>,
    pub at: u32,
}

/// An expression. Its offset is that of its first token, of a binary expression that of the operator.
#[derive(Drop)]
pub enum Expr<'a> {
    Number(u32, u32),
    /// The least number, -2147483648, whose digits alone are no number.
    Least(u32),
    Truth(bool, u32),
    Null(u32),
    This(u32),
    Var(Name<'a>),
    Paren(Box<Expr<'a>>, u32),
    Not(Box<Expr<'a>>, u32),
    Neg(Box<Expr<'a>>, u32),
    Binary(Op, Box<Expr<'a>>, Box<Expr<'a>>, u32),
    Get(Box<Expr<'a>>, Name<'a>),
    Call(Box<Expr<'a>>, Name<'a>, Vec<Expr<'a>>),
    New(Name<'a>, Vec<Expr<'a>>, u32),
}

/// A statement. Its offset is that of its first token, of an assignment that of the `=`.
#[derive(Drop)]
pub enum Stmt<'a> {
    Empty(u32),
    Block(Vec<Stmt<'a>>, u32),
    Local {
        is_final: bool,
        ty: TypeName<'a>,
        name: Name<'a>,
        value: Box<Expr<'a>>,
        at: u32,
    },
    SetVar(Name<'a>, Box<Expr<'a>>, u32),
    SetField(Box<Expr<'a>>, Name<'a>, Box<Expr<'a>>, u32),
    Do(Box<Expr<'a>>, u32),
    If(Box<Expr<'a>>, Box<Stmt<'a>>, Option<Box<Stmt<'a>>>, u32),
    While(Box<Expr<'a>>, Box<Stmt<'a>>, u32),
    Sync(Lock<'a>, Vec<Stmt<'a>>, u32),
    Return(Option<Box<Expr<'a>>>, u32),
    Print(Box<Expr<'a>>, u32),
    Start(Box<Expr<'a>>, u32),
}

/// A member of a class. A field's guard holds for its writes alone where `writes_only` is true, and a field without a
/// guard has it false.
#[derive(Drop)]
pub enum Member<'a> {
    Field {
        is_final: bool,
        ty: TypeName<'a>,
        name: Name<'a>,
        guard: Option<Lock<'a>>,
        writes_only: bool,
    },
    /// A constructor, with its assignments `this.FIELD = PARAMETER;` as pairs of names.
    Ctor {
        name: Name<'a>,
        params: Vec<Param<'a>>,
        sets: Vec<(Name<'a>, Name<'a>)>,
    },
    /// A method. No result is `void`; `end` is the offset of the closing brace.
    Method {
        atomic: bool,
        result: Option<TypeName<'a>>,
        name: Name<'a>,
        params: Vec<Param<'a>>,
        requires_: Vec<Lock<'a>>,
        body: Vec<Stmt<'a>>,
        end: u32,
    },
}

/// A class. `above` is the name of the class that it extends, if it extends one.
#[derive(Drop)]
pub struct Class<'a> {
    pub name: Name<'a>,
    pub above: Option<Name<'a>>,
    pub runnable: bool,
    pub members: Vec<Member<'a>>,
}

/// A program: its classes, as they are written.
#[derive(Drop)]
pub struct Program<'a> {
    pub classes: Vec<Class<'a>>,
}

//! Derivations in memory.
ghost use Rattle.std.specs.Prelude.{◌≡◌};
ghost use Rattle.books.specs.Derivations.{node};
ghost use Rattle.books.specs.Memory.{node_of, nodes_at};

use crate::nodes::{First, Nodes};
use crate::word::Word;

/// A node of a derivation, by its word: the number of its conclusion in the table of its book, and its premises.
#[derive(Drop)]
pub enum Derivation {
    Lit(u32, Vec<Derivation>),
    This(u32, Vec<Derivation>),
    Var(u32, Vec<Derivation>),
    Un(u32, Vec<Derivation>),
    Bin(u32, Vec<Derivation>),
    And(u32, Vec<Derivation>),
    Or(u32, Vec<Derivation>),
    Get(u32, Vec<Derivation>),
    New(u32, Vec<Derivation>),
    Call(u32, Vec<Derivation>),
    Local(u32, Vec<Derivation>),
    Set(u32, Vec<Derivation>),
    Put(u32, Vec<Derivation>),
    Block(u32, Vec<Derivation>),
    If(u32, Vec<Derivation>),
    While(u32, Vec<Derivation>),
    Sync(u32, Vec<Derivation>),
    Return(u32, Vec<Derivation>),
    Print(u32, Vec<Derivation>),
    Start(u32, Vec<Derivation>),
    Do(u32, Vec<Derivation>),
    Skip(u32, Vec<Derivation>),
}

/// A node of a derivation: its word, the number of its conclusion, and its premises.
#[derive(Clone, Copy)]
pub struct Lent<'a> {
    pub word: Word,
    pub number: u32,
    pub premises: &'a [Derivation],
}

/// The parts of a node with this word.
fn lent_as<'a>(word: Word, number: u32, premises: &'a Vec<Derivation>) -> Lent<'a>
    ensures { node result.word result.number (nodes_at result.premises.now) ≡ node word number (nodes_at premises.now.items) }
{
    Lent {
        word,
        number,
        premises: premises.as_slice(),
    }
}

impl Derivation {
    /// A node from its parts.
    pub fn new(word: Word, number: u32, premises: Vec<Derivation>) -> Derivation
        ensures { node_of result ≡ node word number (nodes_at premises.items) }
    {
        match word {
            Word::Lit => Derivation::Lit(number, premises),
            Word::This => Derivation::This(number, premises),
            Word::Var => Derivation::Var(number, premises),
            Word::Un => Derivation::Un(number, premises),
            Word::Bin => Derivation::Bin(number, premises),
            Word::And => Derivation::And(number, premises),
            Word::Or => Derivation::Or(number, premises),
            Word::Get => Derivation::Get(number, premises),
            Word::New => Derivation::New(number, premises),
            Word::Call => Derivation::Call(number, premises),
            Word::Local => Derivation::Local(number, premises),
            Word::Set => Derivation::Set(number, premises),
            Word::Put => Derivation::Put(number, premises),
            Word::Block => Derivation::Block(number, premises),
            Word::If => Derivation::If(number, premises),
            Word::While => Derivation::While(number, premises),
            Word::Sync => Derivation::Sync(number, premises),
            Word::Return => Derivation::Return(number, premises),
            Word::Print => Derivation::Print(number, premises),
            Word::Start => Derivation::Start(number, premises),
            Word::Do => Derivation::Do(number, premises),
            Word::Skip => Derivation::Skip(number, premises),
        }
    }

    /// The parts of the node.
    pub fn lent(&self) -> Lent<'_>
        ensures { node_of self.now ≡ node result.word result.number (nodes_at result.premises.now) }
    {
        match self {
            Derivation::Lit(number, premises) => lent_as(Word::Lit, *number, premises),
            Derivation::This(number, premises) => lent_as(Word::This, *number, premises),
            Derivation::Var(number, premises) => lent_as(Word::Var, *number, premises),
            Derivation::Un(number, premises) => lent_as(Word::Un, *number, premises),
            Derivation::Bin(number, premises) => lent_as(Word::Bin, *number, premises),
            Derivation::And(number, premises) => lent_as(Word::And, *number, premises),
            Derivation::Or(number, premises) => lent_as(Word::Or, *number, premises),
            Derivation::Get(number, premises) => lent_as(Word::Get, *number, premises),
            Derivation::New(number, premises) => lent_as(Word::New, *number, premises),
            Derivation::Call(number, premises) => lent_as(Word::Call, *number, premises),
            Derivation::Local(number, premises) => lent_as(Word::Local, *number, premises),
            Derivation::Set(number, premises) => lent_as(Word::Set, *number, premises),
            Derivation::Put(number, premises) => lent_as(Word::Put, *number, premises),
            Derivation::Block(number, premises) => lent_as(Word::Block, *number, premises),
            Derivation::If(number, premises) => lent_as(Word::If, *number, premises),
            Derivation::While(number, premises) => lent_as(Word::While, *number, premises),
            Derivation::Sync(number, premises) => lent_as(Word::Sync, *number, premises),
            Derivation::Return(number, premises) => lent_as(Word::Return, *number, premises),
            Derivation::Print(number, premises) => lent_as(Word::Print, *number, premises),
            Derivation::Start(number, premises) => lent_as(Word::Start, *number, premises),
            Derivation::Do(number, premises) => lent_as(Word::Do, *number, premises),
            Derivation::Skip(number, premises) => lent_as(Word::Skip, *number, premises),
        }
    }
}

/// Nodes side by side in memory.
#[derive(Clone, Copy)]
pub struct InMemory<'a> {
    pub nodes: &'a [Derivation],
}

impl<'a> Nodes for InMemory<'a> {
    ghost nodes = { λ m. nodes_at m.nodes.now };

    ghost AreKept = { λ m. Unit {0} };

    fn first(self) -> Option<First<Self>> {
        let (first, rest) = self.nodes.split_first()?;
        let lent = first.lent();
        Some(First {
            word: lent.word,
            number: lent.number,
            premises: InMemory {
                nodes: lent.premises,
            },
            rest: InMemory { nodes: rest },
        })
    }
}

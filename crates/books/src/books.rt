//! Books in memory.
ghost use Rattle.std.specs.Prelude.{◌≡◌};
ghost use Rattle.books.specs.Books.{IsBook};
ghost use Rattle.books.specs.Memory.{book_of};

use crate::derivation::Derivation;
use conditions::Tree;
use paths::MethodId;
use std::marker::Model;

/// A book of derivations: its table, and for each method line the method, the number of its tree in the table, and the derivation of
/// its body. Every number is below the length of the table, derivations are at most 64 high, and each tree is canonical with at most
/// 64 tests within each other.
#[derive(Drop)]
pub struct DerivBook {
    pub table: Vec<Tree>,
    pub methods: Vec<(MethodId, u32, Derivation)>,
}

impl Model for DerivBook {
    ghost use Rattle.std.specs.Prelude.{ℕ, List};
    ghost use Rattle.std.specs.Coded.{codes};
    ghost use Rattle.conditions.specs.contracts.tree.Tree as tree;
    ghost use Rattle.conditions.specs.declared.tree.Tree.{Tree};
    ghost use Rattle.books.specs.contracts.derivation.Derivation as derivation;
    ghost use Rattle.books.specs.declared.derivation.Derivation.{Derivation};

    ghost Value = { List Tree × List (ℕ × ℕ × Derivation) };

    ghost coded = { Prim.hlevel (codes, tree.the_row.coded, derivation.the_row.coded) };

    ghost use Rattle.books.specs.Books.{IsBook};
    ghost use Rattle.books.specs.Memory.{book_of};

    ghost view = { λ b. (b.table.items, b.methods.items) };

    ghost invariant = { λ b. IsBook (book_of (b.table.items, b.methods.items)) };
}

impl DerivBook {
    /// A book from its parts.
    pub fn new(table: Vec<Tree>, methods: Vec<(MethodId, u32, Derivation)>) -> DerivBook
        requires { IsBook (book_of (table.items, methods.items)) }
        ensures { result ≡ (table.items, methods.items) }
    {
        DerivBook { table, methods }
    }
}

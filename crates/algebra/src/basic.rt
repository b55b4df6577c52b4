//! The five basic atomicities and their operations.
ghost use Rattle.std.specs.Prelude.{◌≡◌, Some};
ghost use Rattle.algebra.specs.Basics.{rank_of, seq_of, join_of, star_of, lift_of, below_of, name_of};

use std::fmt;

/// How the steps of a part can move among the steps of other threads, in ascending order.
/// A `Mover` part's steps move both ways (Lipton 1975), an `Atomic` part behaves as if nothing came between,
/// a `Cmpd` part need not, and an `Error` part touches a guarded field without its lock.
#[derive(Clone, Copy, Debug, PartialEq, Eq, Hash)]
pub enum Basic {
    Const,
    Mover,
    Atomic,
    Cmpd,
    Error,
}

impl Basic {
    /// This part, then the other.
    pub fn seq(self, other: Basic) -> Basic
        ensures { result ≡ seq_of self other }
    {
        match (self, other) {
            (Basic::Error, _) | (_, Basic::Error) => Basic::Error,
            (Basic::Cmpd, _) | (_, Basic::Cmpd) => Basic::Cmpd,
            (Basic::Const, b) | (b, Basic::Const) => b,
            (Basic::Mover, Basic::Mover) => Basic::Mover,
            (Basic::Mover, Basic::Atomic) | (Basic::Atomic, Basic::Mover) => Basic::Atomic,
            (Basic::Atomic, Basic::Atomic) => Basic::Cmpd,
        }
    }

    /// Either part: the greater one.
    pub fn join(self, other: Basic) -> Basic
        ensures { result ≡ join_of self other }
    {
        if self.below(other) { other } else { self }
    }

    /// The part any number of times.
    pub fn star(self) -> Basic
        ensures { result ≡ star_of self }
    {
        match self {
            Basic::Atomic => Basic::Cmpd,
            other => other,
        }
    }

    /// The part between the acquire and the release of a lock that was not held.
    pub fn lift(self) -> Basic
        ensures { result ≡ lift_of self }
    {
        match self {
            Basic::Const | Basic::Mover => Basic::Atomic,
            other => other,
        }
    }

    /// Whether this is at most the other.
    pub fn below(self, other: Basic) -> bool
        ensures { result ≡ below_of self other }
    {
        self.rank() <= other.rank()
    }

    fn rank(self) -> u8
        ensures { result ≡ rank_of self }
    {
        match self {
            Basic::Const => 0,
            Basic::Mover => 1,
            Basic::Atomic => 2,
            Basic::Cmpd => 3,
            Basic::Error => 4,
        }
    }

    /// The word that stands for it in printed atomicities and in books.
    pub fn name(self) -> &'static str
        ensures { result.now ≡ name_of self }
    {
        match self {
            Basic::Const => "const",
            Basic::Mover => "mover",
            Basic::Atomic => "atomic",
            Basic::Cmpd => "cmpd",
            Basic::Error => "error",
        }
    }
}

impl fmt::Display for Basic {
    ghost output = { λ b. Some (name_of b) };

    fn fmt<W: fmt::Write>(&self, f: &mut fmt::Formatter<W>) -> fmt::Result {
        f.write_str(self.name())
    }
}

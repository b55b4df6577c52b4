//! Values that tell a basic atomicity for every set of held locks at once.
ghost use Rattle.std.specs.Prelude.{◌≡◌, ◌↔◌, true, IfOk, if◌then◌else◌};
ghost use Rattle.algebra.specs.Basics.{seq_of, join_of, star_of, below_of};
ghost use Rattle.algebra.specs.HeldPaths.{Held, has_path, renamed};
ghost use Rattle.algebra.specs.Values.{sync_of, Keeps};

use crate::basic::Basic;
use paths::{Path, Renaming};
use std::alloc::{AllocError as NoMemory, Global};

/// A store of conditional atomicities. A value that it knows has a basic at every set of held paths.
///
/// Each call takes values that are known and gives known ones. What was known stays known and keeps its value after
/// every call, after want of memory too.
pub trait Algebra {
    ghost use Rattle.algebra.specs.declared.basic.Basic.{Basic};

    /// A conditional atomicity of this store.
    type A: Drop;

    ghost IsKnown: { Self → Self.A → Type 0 };

    ghost value: { Self → Self.A → Held → Basic };

    /// The basic itself, whatever is held.
    fn leaf(&mut self, alloc: Global, b: Basic) -> Result<Self::A, NoMemory>
        ensures known { IfOk result (λ r. IsKnown self.new r) }
        ensures value { IfOk result (λ r. (H : Held) → value self.new r H ≡ b) }
        ensures keeps { Keeps IsKnown value self.old self.new };

    /// The first where the path is held, else the second.
    fn held_or(
        &mut self,
        alloc: Global,
        p: &Path,
        a: &Self::A,
        b: &Self::A,
    ) -> Result<Self::A, NoMemory>
        requires a_known { IsKnown self.old a.now }
        requires b_known { IsKnown self.old b.now }
        ensures known { IfOk result (λ r. IsKnown self.new r) }
        ensures value { IfOk result (λ r. (H : Held) →
            value self.new r H ≡ (if H p.now then value self.old a.now H else value self.old b.now H)) }
        ensures keeps { Keeps IsKnown value self.old self.new };

    /// The first, then the second.
    fn seq(&mut self, alloc: Global, a: &Self::A, b: &Self::A) -> Result<Self::A, NoMemory>
        requires a_known { IsKnown self.old a.now }
        requires b_known { IsKnown self.old b.now }
        ensures known { IfOk result (λ r. IsKnown self.new r) }
        ensures value { IfOk result (λ r. (H : Held) →
            value self.new r H ≡ seq_of (value self.old a.now H) (value self.old b.now H)) }
        ensures keeps { Keeps IsKnown value self.old self.new };

    /// Either of the two: the greater one at each set.
    fn join(&mut self, alloc: Global, a: &Self::A, b: &Self::A) -> Result<Self::A, NoMemory>
        requires a_known { IsKnown self.old a.now }
        requires b_known { IsKnown self.old b.now }
        ensures known { IfOk result (λ r. IsKnown self.new r) }
        ensures value { IfOk result (λ r. (H : Held) →
            value self.new r H ≡ join_of (value self.old a.now H) (value self.old b.now H)) }
        ensures keeps { Keeps IsKnown value self.old self.new };

    /// Any number of times.
    fn star(&mut self, alloc: Global, a: &Self::A) -> Result<Self::A, NoMemory>
        requires { IsKnown self.old a.now }
        ensures known { IfOk result (λ r. IsKnown self.new r) }
        ensures value { IfOk result (λ r. (H : Held) → value self.new r H ≡ star_of (value self.old a.now H)) }
        ensures keeps { Keeps IsKnown value self.old self.new };

    /// A synchronized part on the path: as it is where the path is held, and elsewhere the lift of what it is
    /// with the path held.
    fn sync(&mut self, alloc: Global, p: &Path, a: &Self::A) -> Result<Self::A, NoMemory>
        requires { IsKnown self.old a.now }
        ensures known { IfOk result (λ r. IsKnown self.new r) }
        ensures value { IfOk result (λ r. (H : Held) → value self.new r H ≡ sync_of p.now (value self.old a.now) H) }
        ensures keeps { Keeps IsKnown value self.old self.new };

    /// The value with the map's paths renamed: a path that the map names counts as held where its partner is there
    /// and held; a path that the map doesn't name stands for itself. Where the map names a path more than once, one
    /// held partner is enough.
    fn rename(&mut self, alloc: Global, map: &Renaming, a: &Self::A) -> Result<Self::A, NoMemory>
        requires { IsKnown self.old a.now }
        ensures known { IfOk result (λ r. IsKnown self.new r) }
        ensures value { IfOk result (λ r. (H : Held) → value self.new r H ≡ value self.old a.now (renamed map.now H)) }
        ensures keeps { Keeps IsKnown value self.old self.new };

    /// Whether the first is at most the second at every set of held paths.
    fn below(&self, a: &Self::A, b: &Self::A) -> bool
        requires a_known { IsKnown self.now a.now }
        requires b_known { IsKnown self.now b.now }
        ensures { (result ≡ true) ↔ ((H : Held) → below_of (value self.now a.now H) (value self.now b.now H) ≡ true) };

    /// The basic at the set of these paths, in any order.
    fn at(&self, a: &Self::A, held: &[Path]) -> Basic
        requires { IsKnown self.now a.now }
        ensures { result ≡ value self.now a.now (has_path held.now) };
}

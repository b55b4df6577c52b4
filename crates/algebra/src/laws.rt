//! The laws of basic atomicities.
ghost use Rattle.std.specs.Prelude.{◌≡◌, ◌⊎◌, true};
ghost use Rattle.algebra.specs.declared.basic.Basic.{Basic};
ghost use Rattle.algebra.specs.declared.basic.Basic.TheVariants.{Const};
ghost use Rattle.algebra.specs.Basics.{seq_of, join_of, star_of, lift_of, below_of};

/// The order of basics is total, `join` is the least upper bound, and sequence, iteration and lift fit the order.
pub fn basic_laws()
    // a total order
    ensures reflexive { (a : Basic) → below_of a a ≡ true }
    ensures antisymmetric { (a b : Basic) → below_of a b ≡ true → below_of b a ≡ true → a ≡ b }
    ensures transitive { (a b c : Basic) → below_of a b ≡ true → below_of b c ≡ true → below_of a c ≡ true }
    ensures total { (a b : Basic) → (below_of a b ≡ true) ⊎ (below_of b a ≡ true) }

    // the join is the least upper bound
    ensures join_above_first { (a b : Basic) → below_of a (join_of a b) ≡ true }
    ensures join_above_second { (a b : Basic) → below_of b (join_of a b) ≡ true }
    ensures join_least { (a b c : Basic) → below_of a c ≡ true → below_of b c ≡ true → below_of (join_of a b) c ≡ true }

    // sequence
    ensures associative { (a b c : Basic) → seq_of (seq_of a b) c ≡ seq_of a (seq_of b c) }
    ensures unit_before { (a : Basic) → seq_of Const a ≡ a }
    ensures unit_after { (a : Basic) → seq_of a Const ≡ a }
    ensures monotone_first { (a b c : Basic) → below_of a b ≡ true → below_of (seq_of a c) (seq_of b c) ≡ true }
    ensures monotone_second { (a b c : Basic) → below_of a b ≡ true → below_of (seq_of c a) (seq_of c b) ≡ true }

    // iteration
    ensures star_above { (a : Basic) → below_of a (star_of a) ≡ true }
    ensures star_repeats { (a : Basic) → star_of a ≡ seq_of (star_of a) (star_of a) }
    ensures star_monotone { (a b : Basic) → below_of a b ≡ true → below_of (star_of a) (star_of b) ≡ true }

    // lift
    ensures lift_above { (a : Basic) → below_of a (lift_of a) ≡ true }
    ensures lift_monotone { (a b : Basic) → below_of a b ≡ true → below_of (lift_of a) (lift_of b) ≡ true }
{}

//! Names of slots, computed.
ghost use Rattle.std.specs.Prelude.{[], ◌∷◌, codes};
ghost use Rattle.places.specs.Making.{AreNamed, IsEachNamed};
ghost use Rattle.explain_examples.specs.Scopes.{one_variable};

/// The slot of a variable in scope has its name, and slot 0 is `this`.
pub fn which_names_slots_have()
    ensures none { IsEachNamed (codes "this" ∷ []) [] }
    ensures one { AreNamed (codes "this" ∷ codes "x" ∷ []) (one_variable 1) }
    ensures another { IsEachNamed (codes "this" ∷ codes "y" ∷ []) (one_variable 1) → ⊥ }
    ensures past { IsEachNamed (codes "this" ∷ codes "x" ∷ []) (one_variable 2) → ⊥ }
    ensures no_this { AreNamed (codes "x" ∷ codes "x" ∷ []) (one_variable 1) → ⊥ }
{}

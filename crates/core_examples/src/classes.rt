//! Classes that extend each other: kinds, fields, and the method that runs.
ghost use Rattle.std.specs.Prelude.{◌≡◌, true, false, [], ◌∷◌, Some, None};
ghost use Rattle.base.specs.Ancestors.{steps_up, is_circular, reaches};
ghost use Rattle.core_program.specs.Dispatch.{above_of, is_kind_of, inherited_fields, has_field, partner, target_of, inherited_target, Overrides};
ghost use Rattle.core_examples.specs.Family.{family};

/// A class is of its own kind and of the kinds of its ancestors, and of no other.
pub fn of_which_kind_classes_are()
    ensures own { is_kind_of family 2 2 ≡ true }
    ensures above { is_kind_of family 2 1 ≡ true }
    ensures further_above { is_kind_of family 2 0 ≡ true }
    ensures below { is_kind_of family 1 2 ≡ false }
    ensures apart { is_kind_of family 3 0 ≡ false }
    ensures no_step_up { steps_up (above_of family) 0 2 ≡ Some 2 }
    ensures two_steps_up { steps_up (above_of family) 2 2 ≡ Some 0 }
    ensures past_the_top { steps_up (above_of family) 3 2 ≡ None }
    ensures on_a_circle { is_circular (λ c. Some c) 4 2 ≡ true }
    ensures on_no_circle { is_circular (above_of family) 4 2 ≡ false }
    ensures too_few_steps { is_circular (above_of family) 2 2 ≡ true }
    ensures two_steps_from_below { is_circular (above_of family) 2 1 ≡ false }
    ensures no_steps_left { reaches (above_of family) 0 (Some 2) 1 ≡ false }
    ensures itself_at_once { reaches (above_of family) 0 (Some 2) 2 ≡ true }
    ensures few_steps { reaches (above_of family) 1 (Some 2) 0 ≡ false }
    ensures nowhere { reaches (above_of family) 4 None 0 ≡ false }
    ensures extends_one { above_of family 2 ≡ Some 1 }
    ensures extends_none { above_of family 3 ≡ None }
    ensures absent { above_of family 4 ≡ None }
{}

/// A class has its own fields and those from above.
pub fn which_fields_classes_have()
    ensures own { has_field family 1 1 ≡ true }
    ensures inherited { has_field family 2 0 ≡ true }
    ensures of_one_below { has_field family 0 1 ≡ false }
    ensures of_no_class { has_field family 4 0 ≡ false }
    ensures from_above { inherited_fields family (Some 1) ≡ 0 ∷ 1 ∷ [] }
    ensures from_none { inherited_fields family None ≡ [] }
    ensures from_absent { inherited_fields family (Some 4) ≡ [] }
{}

/// The class of the object chooses: its own method, else the one that runs for the class above; a class has no method from below.
pub fn which_method_runs()
    ensures own { target_of family 0 0 ≡ Some 0 }
    ensures overriding { target_of family 1 0 ≡ Some 2 }
    ensures inherited_overriding { target_of family 2 0 ≡ Some 2 }
    ensures inherited { target_of family 2 1 ≡ Some 1 }
    ensures of_one_below { target_of family 0 2 ≡ None }
    ensures of_no_class { target_of family 4 0 ≡ None }
    ensures first_pair { partner ((1, 5) ∷ (1, 6) ∷ []) 1 ≡ Some 5 }
    ensures no_pair { partner ((1, 5) ∷ []) 5 ≡ None }
    ensures from_above { inherited_target family (Some 1) 0 ≡ Some 2 }
    ensures from_none { inherited_target family None 0 ≡ None }
{}

/// A method overrides another one for which it runs in its own class.
pub fn which_methods_override()
    ensures overrides { Overrides family 2 0 }
    ensures not_itself { Overrides family 0 0 → ⊥ }
    ensures not_the_other_way { Overrides family 0 2 → ⊥ }
    ensures not_of_another_name { Overrides family 2 1 → ⊥ }
    ensures not_of_one_inherited { Overrides family 3 0 → ⊥ }
{}

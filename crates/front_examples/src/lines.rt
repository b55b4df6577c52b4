//! Which class stands above which, and what a class inherits.
ghost use Rattle.std.specs.Prelude.{◌≡◌, true, false, [], ◌∷◌, map, Some, None, codes};
ghost use Rattle.classes.specs.Lines.{ancestors, class_named, above, ancestors_of, is_on_circle, ancestor_classes, members_at, inherited, all_members, says_runnable, says_so};
ghost use Rattle.front_examples.specs.Lined.{lined, a_field, m_method, b_field, other_a_field, c_field, g_field};

/// A class extends the first class of the name behind its `extends`.
pub fn what_stands_above()
    ensures named { map (class_named lined) (codes "A" ∷ codes "B" ∷ codes "X" ∷ []) ≡ Some 0 ∷ Some 1 ∷ None ∷ [] }
    ensures above { map (above lined) (0 ∷ 1 ∷ 2 ∷ 3 ∷ 4 ∷ 7 ∷ 8 ∷ []) ≡ None ∷ Some 0 ∷ Some 1 ∷ None ∷ Some 5 ∷ Some 2 ∷ None ∷ [] }
    ensures ancestors { map (ancestors_of lined) (0 ∷ 1 ∷ 2 ∷ 3 ∷ 7 ∷ []) ≡ [] ∷ (0 ∷ []) ∷ (1 ∷ 0 ∷ []) ∷ [] ∷ (2 ∷ 1 ∷ 0 ∷ []) ∷ [] }
    ensures at_most_so_many { ancestors (above lined) 3 (Some 4) ≡ 4 ∷ 5 ∷ 4 ∷ [] }
    ensures nothing { ancestors (above lined) 3 None ≡ [] }
    ensures circles { map (is_on_circle lined) (0 ∷ 2 ∷ 3 ∷ 4 ∷ 5 ∷ 6 ∷ 7 ∷ []) ≡ false ∷ false ∷ false ∷ true ∷ true ∷ true ∷ false ∷ [] }
    ensures line { map (ancestor_classes lined) (2 ∷ 3 ∷ 4 ∷ 6 ∷ []) ≡ (1 ∷ 0 ∷ []) ∷ [] ∷ [] ∷ [] ∷ [] }
{}

/// A class has what the furthest ancestor declares, and so on down to its own; on or below a circle only its own.
pub fn what_classes_have()
    ensures own { members_at lined 0 ≡ a_field ∷ m_method ∷ [] }
    ensures no_class { members_at lined 8 ≡ [] }
    ensures inherited { inherited lined 2 ≡ a_field ∷ m_method ∷ b_field ∷ [] }
    ensures nothing_inherited { inherited lined 0 ≡ [] }
    ensures all { all_members lined 2 ≡ a_field ∷ m_method ∷ b_field ∷ other_a_field ∷ c_field ∷ [] }
    ensures below_a_circle { all_members lined 6 ≡ g_field ∷ [] }
    ensures says { map (says_runnable lined) (0 ∷ 1 ∷ 2 ∷ 8 ∷ []) ≡ false ∷ true ∷ false ∷ false ∷ [] }
    ensures counts { map (says_so lined) (0 ∷ 1 ∷ 2 ∷ 3 ∷ 4 ∷ 6 ∷ []) ≡ false ∷ true ∷ true ∷ false ∷ true ∷ true ∷ [] }
{}

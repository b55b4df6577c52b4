//! The members of a class by kind, constructors, methods to begin with, and names that stand again.
ghost use Rattle.std.specs.Prelude.{◌≡◌, true, false, [], ◌∷◌, map, Some, None, codes};
ghost use Rattle.syntax.specs.declared.tree.TypeName.TheVariants as Y;
ghost use Rattle.syntax.specs.Trees.{CtorM, no_stmts};
ghost use Rattle.classes.specs.Names.{texts_of, has_text, with_text, repeats, repeats_after, distinct};
ghost use Rattle.classes.specs.Members.{has_none, class_names, field_names, method_names, param_names, finals_of, is_constructor, is_same_type, are_params_of, are_sets_of, is_bare, is_entry};
ghost use Rattle.classes.specs.Faults.{is_right, constructor_faults, missing_constructor};
ghost use Rattle.classes.specs.declared.fault.ClassFault.TheVariants.{BadConstructor};
ghost use Rattle.front_examples.specs.Written.{name, class_type_name, param, field, method_tree, method, bare_method, this_lock};
ghost use Rattle.front_examples.specs.Lined.{lined, a_field, m_method, b_field, c_field};
ghost use Rattle.front_examples.specs.Shop.{two_finals, two_params, two_sets, right_constructor};

/// Fields, methods, constructors and final fields, in the order in which they are written.
pub fn which_members_there_are()
    ensures classes { texts_of (class_names lined) ≡ codes "A" ∷ codes "B" ∷ codes "C" ∷ codes "D" ∷ codes "E" ∷ codes "F" ∷ codes "G" ∷ codes "A" ∷ [] }
    ensures fields { texts_of (field_names (b_field ∷ m_method ∷ right_constructor ∷ c_field ∷ [])) ≡ codes "b" ∷ codes "c" ∷ [] }
    ensures methods { texts_of (method_names (b_field ∷ m_method ∷ right_constructor ∷ m_method ∷ [])) ≡ codes "m" ∷ codes "m" ∷ [] }
    ensures parameters { texts_of (param_names two_params) ≡ codes "low" ∷ codes "up" ∷ [] }
    ensures finals { finals_of (a_field ∷ right_constructor ∷ b_field ∷ m_method ∷ b_field ∷ []) ≡ (Y.Int, name (codes "b") 13) ∷ (Y.Int, name (codes "b") 13) ∷ [] }
    ensures constructors { map is_constructor (a_field ∷ right_constructor ∷ m_method ∷ []) ≡ false ∷ true ∷ false ∷ [] }
    ensures empty { has_none two_params ≡ false }
{}

/// Two types are the same as they are written.
pub fn which_types_are_written_alike()
    ensures ints { is_same_type Y.Int Y.Int ≡ true }
    ensures truths { is_same_type Y.Boolean Y.Boolean ≡ true }
    ensures classes { is_same_type (class_type_name (codes "A") 3) (class_type_name (codes "A") 5) ≡ true }
    ensures other_classes { is_same_type (class_type_name (codes "A") 3) (class_type_name (codes "B") 3) ≡ false }
    ensures int_and_truth { is_same_type Y.Int Y.Boolean ≡ false }
    ensures class_and_int { is_same_type (class_type_name (codes "A") 3) Y.Int ≡ false }
{}

/// A constructor has the class's name, the final fields as parameters, in order, and assigns each from its own parameter.
pub fn which_constructors_are_right()
    ensures right { is_right (name (codes "Pair") 0) two_finals (name (codes "Pair") 9) two_params two_sets ≡ true }
    ensures other_name { is_right (name (codes "Pair") 0) two_finals (name (codes "Pairs") 9) two_params two_sets ≡ false }
    ensures no_finals { is_right (name (codes "Pair") 0) [] (name (codes "Pair") 9) [] [] ≡ false }
    ensures other_parameters { is_right (name (codes "Pair") 0) two_finals (name (codes "Pair") 9) [] two_sets ≡ false }
    ensures other_assignments { is_right (name (codes "Pair") 0) two_finals (name (codes "Pair") 9) two_params [] ≡ false }
    ensures one_parameter_less { are_params_of two_finals (param false Y.Int (name (codes "low") 0) ∷ []) ≡ false }
    ensures one_parameter_more { are_params_of [] two_params ≡ false }
    ensures other_type { are_params_of two_finals (param false Y.Int (name (codes "low") 0) ∷ param false Y.Int (name (codes "up") 0) ∷ []) ≡ false }
    ensures other_parameter { are_params_of two_finals (param false Y.Int (name (codes "low") 0) ∷ param false (class_type_name (codes "A") 0) (name (codes "down") 0) ∷ []) ≡ false }
    ensures other_order { are_params_of two_finals (param false (class_type_name (codes "A") 0) (name (codes "up") 0) ∷ param false Y.Int (name (codes "low") 0) ∷ []) ≡ false }
    ensures final_parameters { are_params_of two_finals (param true Y.Int (name (codes "low") 0) ∷ param true (class_type_name (codes "A") 0) (name (codes "up") 0) ∷ []) ≡ true }
    ensures no_parameters { are_params_of [] [] ≡ true }
    ensures one_assignment_less { are_sets_of two_finals ((name (codes "low") 0, name (codes "low") 0) ∷ []) ≡ false }
    ensures one_assignment_more { are_sets_of [] two_sets ≡ false }
    ensures other_field { are_sets_of two_finals ((name (codes "low") 0, name (codes "low") 0) ∷ (name (codes "down") 0, name (codes "up") 0) ∷ []) ≡ false }
    ensures other_value { are_sets_of two_finals ((name (codes "low") 0, name (codes "up") 0) ∷ (name (codes "up") 0, name (codes "up") 0) ∷ []) ≡ false }
    ensures assignments { are_sets_of two_finals two_sets ≡ true }
    ensures assignments_back { are_sets_of two_finals ((name (codes "up") 0, name (codes "up") 0) ∷ (name (codes "low") 0, name (codes "low") 0) ∷ []) ≡ false }
{}

/// A second constructor is one too many, and so is any where there are no final fields; with final fields one has to be there.
pub fn which_constructors_are_faults()
    ensures right { constructor_faults (name (codes "Pair") 0) two_finals false (a_field ∷ m_method ∷ right_constructor ∷ []) ≡ [] }
    ensures second { constructor_faults (name (codes "Pair") 0) two_finals false (right_constructor ∷ right_constructor ∷ []) ≡ BadConstructor 9 ∷ [] }
    ensures wrong { constructor_faults (name (codes "Pairs") 0) two_finals false (right_constructor ∷ []) ≡ BadConstructor 9 ∷ [] }
    ensures after_a_wrong_one { constructor_faults (name (codes "Pair") 0) two_finals false (CtorM (name (codes "Pair") 7) [] [] ∷ right_constructor ∷ []) ≡ BadConstructor 7 ∷ BadConstructor 9 ∷ [] }
    ensures needless { constructor_faults (name (codes "Pair") 0) [] false (CtorM (name (codes "Pair") 7) [] [] ∷ []) ≡ BadConstructor 7 ∷ [] }
    ensures missing { missing_constructor (name (codes "Pair") 6) two_finals (a_field ∷ m_method ∷ []) ≡ BadConstructor 6 ∷ [] }
    ensures there { missing_constructor (name (codes "Pair") 6) two_finals (a_field ∷ right_constructor ∷ []) ≡ [] }
    ensures not_needed { missing_constructor (name (codes "Pair") 6) [] (a_field ∷ []) ≡ [] }
{}

/// A method to begin with is void, without parameters and without `requires`, and has the name that is asked for.
pub fn which_methods_begin()
    ensures bare { is_bare (method_tree (name (codes "run") 0) [] None no_stmts) ≡ true }
    ensures result { is_bare (method_tree (name (codes "run") 0) [] (Some Y.Int) no_stmts) ≡ false }
    ensures parameters { is_bare (method_tree (name (codes "run") 0) two_params None no_stmts) ≡ false }
    ensures locks { is_bare (record (method_tree (name (codes "run") 0) [] None no_stmts) { locks = this_lock ∷ [] }) ≡ false }
    ensures annotated { is_bare (record (method_tree (name (codes "run") 0) [] None no_stmts) { atomic = true }) ≡ true }
    ensures entry { is_entry (codes "run") (bare_method (name (codes "run") 0)) ≡ true }
    ensures other_name { is_entry (codes "run") (bare_method (name (codes "main") 0)) ≡ false }
    ensures not_bare { is_entry (codes "run") (method (name (codes "run") 0) two_params None no_stmts) ≡ false }
    ensures field { is_entry (codes "run") (field false Y.Int (name (codes "run") 0)) ≡ false }
    ensures constructor { is_entry (codes "Pair") right_constructor ≡ false }
{}

/// Names that stand again, and texts each once.
pub fn which_names_stand_again()
    ensures repeated { repeats (name (codes "a") 1 ∷ name (codes "b") 2 ∷ name (codes "a") 3 ∷ name (codes "a") 4 ∷ name (codes "b") 5 ∷ []) ≡ 3 ∷ 4 ∷ 5 ∷ [] }
    ensures after_others { repeats_after (codes "b" ∷ []) (name (codes "a") 1 ∷ name (codes "b") 2 ∷ []) ≡ 2 ∷ [] }
    ensures once { distinct (name (codes "a") 1 ∷ name (codes "b") 2 ∷ name (codes "a") 3 ∷ name (codes "c") 4 ∷ []) ≡ codes "a" ∷ codes "b" ∷ codes "c" ∷ [] }
    ensures has { has_text (codes "a" ∷ codes "b" ∷ []) (codes "b") ≡ true }
    ensures lacks { has_text (codes "a" ∷ codes "b" ∷ []) (codes "ab") ≡ false }
    ensures with_one_more { with_text (codes "a" ∷ []) (codes "b") ≡ codes "a" ∷ codes "b" ∷ [] }
    ensures with_no_more { with_text (codes "a" ∷ codes "b" ∷ []) (codes "a") ≡ codes "a" ∷ codes "b" ∷ [] }
{}

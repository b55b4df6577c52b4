//! The faults of classes: each of them, and which is told.
ghost use Rattle.std.specs.Prelude.{◌≡◌, true, false, [], ◌∷◌, map, Some, None, codes};
ghost use Rattle.syntax.specs.declared.tree.TypeName.TheVariants as Y;
ghost use Rattle.syntax.specs.Trees.{no_stmts, CtorM, MethodM};
ghost use Rattle.classes.specs.declared.fault.ClassFault.TheVariants.{Twice, UnknownClass, BadConstructor, NoMain, NoRun, TooMany, NoMemory, Circle, BadOverride};
ghost use Rattle.classes.specs.Faults.{all_class_faults, params_faults, member_all_class_faults, missing_run, missing_main, is_main, class_fault_offset, class_fault_rank, class_fault_place, IsFirstClassFault};
ghost use Rattle.classes.specs.First.{comes_before, first_noted};
ghost use Rattle.classes.specs.Limits.{most_class_fields, most_method_parameters};
ghost use Rattle.front_examples.specs.Written.{name, class_type_name, param, field, method_tree, method, bare_method, class_tree, class_below};
ghost use Rattle.front_examples.specs.Lined.{lined, b_field};
ghost use Rattle.front_examples.specs.Shop.{n_param, main_class_tree, shop};
ghost use Rattle.front_examples.specs.Faulty.{with_main, below_other, same_method, numbered_fields, numbered_params};

/// A program without faults, and each fault in one that is else without.
pub fn which_faults_there_are()
    ensures none { all_class_faults shop ≡ [] }
    ensures class_twice { all_class_faults (main_class_tree ∷ class_tree (name (codes "Main") 99) [] ∷ []) ≡ Twice 99 ∷ [] }
    ensures field_twice { all_class_faults (with_main (field false Y.Int (name (codes "f") 1) ∷ field false Y.Boolean (name (codes "f") 2) ∷ [])) ≡ Twice 2 ∷ [] }
    ensures inherited_field { all_class_faults (below_other (field false Y.Int (name (codes "f") 2) ∷ []) (field false Y.Boolean (name (codes "f") 8) ∷ [])) ≡ Twice 8 ∷ [] }
    ensures method_twice { all_class_faults (with_main (bare_method (name (codes "m") 1) ∷ bare_method (name (codes "m") 2) ∷ [])) ≡ Twice 2 ∷ [] }
    ensures parameter_twice { all_class_faults (with_main (method (name (codes "m") 1) (param false Y.Int (name (codes "p") 2) ∷ param true Y.Int (name (codes "p") 3) ∷ []) None no_stmts ∷ [])) ≡ Twice 3 ∷ [] }
    ensures unknown_field_type { all_class_faults (with_main (field false (class_type_name (codes "X") 1) (name (codes "f") 2) ∷ [])) ≡ UnknownClass 1 ∷ [] }
    ensures unknown_result { all_class_faults (with_main (method (name (codes "m") 2) [] (Some (class_type_name (codes "X") 1)) no_stmts ∷ [])) ≡ UnknownClass 1 ∷ [] }
    ensures unknown_parameter_type { all_class_faults (with_main (method (name (codes "m") 2) (param false (class_type_name (codes "X") 3) (name (codes "p") 4) ∷ []) None no_stmts ∷ [])) ≡ UnknownClass 3 ∷ [] }
    ensures unknown_above { all_class_faults (main_class_tree ∷ class_below (name (codes "C") 1) (name (codes "X") 2) [] ∷ []) ≡ UnknownClass 2 ∷ [] }
    ensures missing_constructor { all_class_faults (main_class_tree ∷ class_tree (name (codes "C") 1) (b_field ∷ []) ∷ []) ≡ BadConstructor 1 ∷ [] }
    ensures inherited_final { all_class_faults (below_other (b_field ∷ CtorM (name (codes "B") 4) (param false Y.Int (name (codes "b") 5) ∷ []) ((name (codes "b") 6, name (codes "b") 7) ∷ []) ∷ []) []) ≡ BadConstructor 20 ∷ [] }
    ensures needless_constructor { all_class_faults (main_class_tree ∷ class_tree (name (codes "C") 1) (CtorM (name (codes "C") 2) [] [] ∷ []) ∷ []) ≡ BadConstructor 2 ∷ [] }
    ensures no_run { all_class_faults (main_class_tree ∷ record (class_tree (name (codes "C") 1) []) { runnable = true } ∷ []) ≡ NoRun 1 ∷ [] }
    ensures run_with_result { all_class_faults (main_class_tree ∷ record (class_tree (name (codes "C") 1) (method (name (codes "run") 2) [] (Some Y.Int) no_stmts ∷ [])) { runnable = true } ∷ []) ≡ NoRun 1 ∷ [] }
    ensures circle { all_class_faults (main_class_tree ∷ class_below (name (codes "C") 1) (name (codes "C") 2) [] ∷ []) ≡ Circle 1 ∷ [] }
    ensures below_a_circle { all_class_faults (main_class_tree ∷ class_below (name (codes "C") 1) (name (codes "C") 2) [] ∷ class_below (name (codes "D") 3) (name (codes "C") 4) [] ∷ []) ≡ Circle 1 ∷ Circle 3 ∷ [] }
    ensures bad_override { all_class_faults (below_other (bare_method (name (codes "m") 2) ∷ []) (MethodM (record (method_tree (name (codes "m") 8) [] None no_stmts) { atomic = true }) ∷ [])) ≡ BadOverride 8 ∷ [] }
    ensures good_override { all_class_faults (below_other (same_method 2 ∷ []) (same_method 8 ∷ [])) ≡ [] }
    ensures no_main { all_class_faults [] ≡ NoMain ∷ [] }
    ensures main_with_final { all_class_faults (class_tree (name (codes "Main") 1) (b_field ∷ CtorM (name (codes "Main") 4) (param false Y.Int (name (codes "b") 5) ∷ []) ((name (codes "b") 6, name (codes "b") 7) ∷ []) ∷ bare_method (name (codes "main") 8) ∷ []) ∷ []) ≡ NoMain ∷ [] }
    ensures main_with_parameters { all_class_faults (class_tree (name (codes "Main") 1) (method (name (codes "main") 2) (n_param ∷ []) None no_stmts ∷ []) ∷ []) ≡ NoMain ∷ [] }
    ensures inherited_main { all_class_faults (class_tree (name (codes "A") 1) (bare_method (name (codes "main") 2) ∷ []) ∷ class_below (name (codes "Main") 3) (name (codes "A") 4) [] ∷ []) ≡ [] }
{}

/// A class has at most 32 fields, inherited ones counted first, and a method or constructor at most 16 parameters.
pub fn how_many_there_may_be()
    ensures fields { all_class_faults (with_main (numbered_fields 100 32)) ≡ [] }
    ensures one_field_more { all_class_faults (with_main (numbered_fields 100 34)) ≡ TooMany 132 ∷ [] }
    ensures inherited_fields { all_class_faults (below_other (numbered_fields 100 30) (numbered_fields 130 4)) ≡ TooMany 132 ∷ [] }
    ensures parameters { params_faults (λ text. false) (numbered_params 100 16) ≡ [] }
    ensures one_parameter_more { params_faults (λ text. false) (numbered_params 100 18) ≡ TooMany 116 ∷ [] }
    ensures of_a_constructor { member_all_class_faults (λ text. false) (CtorM (name (codes "C") 1) (numbered_params 100 17) []) ≡ TooMany 116 ∷ [] }
    ensures limits { most_class_fields ∷ most_method_parameters ∷ [] ≡ 32 ∷ 16 ∷ [] }
{}

/// A class to begin with is called `Main`, and has no final fields and a `main` of the right form; one that counts as Runnable has such a `run`.
pub fn which_classes_begin()
    ensures main { is_main (name (codes "Main") 0) (bare_method (name (codes "main") 1) ∷ []) ≡ true }
    ensures other_name { is_main (name (codes "Mains") 0) (bare_method (name (codes "main") 1) ∷ []) ≡ false }
    ensures final_field { is_main (name (codes "Main") 0) (b_field ∷ bare_method (name (codes "main") 1) ∷ []) ≡ false }
    ensures no_method { is_main (name (codes "Main") 0) (bare_method (name (codes "run") 1) ∷ []) ≡ false }
    ensures second_of_its_name { is_main (name (codes "Main") 0) (method (name (codes "main") 1) [] (Some Y.Int) no_stmts ∷ bare_method (name (codes "main") 2) ∷ []) ≡ true }
    ensures not_runnable { missing_run (name (codes "C") 5) false [] ≡ [] }
    ensures run { missing_run (name (codes "C") 5) true (bare_method (name (codes "run") 1) ∷ []) ≡ [] }
    ensures no_run { missing_run (name (codes "C") 5) true (bare_method (name (codes "runs") 1) ∷ []) ≡ NoRun 5 ∷ [] }
    ensures later_class { missing_main (class_tree (name (codes "A") 0) [] ∷ main_class_tree ∷ []) ≡ [] }
{}

/// The first fault is the one with the least offset, at one offset the one that stands first in the table; `NoMain` comes last.
pub fn which_fault_is_told()
    ensures offsets { map class_fault_offset (Twice 5 ∷ UnknownClass 5 ∷ BadConstructor 5 ∷ NoRun 5 ∷ TooMany 5 ∷ Circle 5 ∷ BadOverride 5 ∷ NoMain ∷ NoMemory ∷ []) ≡
        5 ∷ 5 ∷ 5 ∷ 5 ∷ 5 ∷ 5 ∷ 5 ∷ 4294967296 ∷ 4294967296 ∷ [] }
    ensures ranks { map class_fault_rank (Twice 5 ∷ UnknownClass 5 ∷ BadConstructor 5 ∷ NoRun 5 ∷ TooMany 5 ∷ Circle 5 ∷ BadOverride 5 ∷ NoMain ∷ NoMemory ∷ []) ≡
        0 ∷ 1 ∷ 2 ∷ 3 ∷ 4 ∷ 5 ∷ 6 ∷ 7 ∷ 8 ∷ [] }
    ensures by_offset { comes_before (class_fault_place (BadOverride 4)) (class_fault_place (Twice 5)) ≡ true }
    ensures by_rank { comes_before (class_fault_place (Twice 5)) (class_fault_place (NoRun 5)) ≡ true }
    ensures not_before_itself { comes_before (class_fault_place (Twice 5)) (class_fault_place (Twice 5)) ≡ false }
    ensures later { comes_before (class_fault_place (Twice 6)) (class_fault_place (NoRun 5)) ≡ false }
    ensures first { first_noted class_fault_place None (NoMain ∷ Circle 7 ∷ NoRun 5 ∷ Twice 5 ∷ Twice 6 ∷ []) ≡ Some (Twice 5) }
    ensures found_before { first_noted class_fault_place (Some (Twice 4)) (NoRun 5 ∷ []) ≡ Some (Twice 4) }
    ensures none { first_noted class_fault_place None [] ≡ None }
    ensures all_of_a_program { all_class_faults lined ≡ Twice 70 ∷ BadConstructor 10 ∷ NoRun 10 ∷ Twice 22 ∷ BadConstructor 20 ∷ NoRun 20 ∷ UnknownClass 31 ∷ NoRun 40 ∷ Circle 40 ∷ NoRun 50 ∷ Circle 50 ∷ NoRun 60 ∷ Circle 60
        ∷ BadConstructor 70 ∷ NoRun 70 ∷ NoMain ∷ [] }
    ensures told { IsFirstClassFault lined (BadConstructor 10) }
    ensures not_told { IsFirstClassFault lined (NoRun 10) → ⊥ }
{}

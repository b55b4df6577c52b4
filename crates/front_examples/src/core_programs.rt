//! Core programs: methods, fields and classes, and the faults of a whole program.
ghost use Rattle.std.specs.Prelude.{◌≡◌, pos, true, false, [], ◌∷◌, map, Some, None, codes, slice_get};
ghost use Rattle.std.specs.declared.cmp.Ordering.TheVariants.{Less, Equal, Greater};
ghost use Rattle.core_program.specs.declared.types.CoreType.TheVariants as T;
ghost use Rattle.core_program.specs.Core as core;
ghost use Rattle.core_program.specs.Examples.{counter};
ghost use Rattle.syntax.specs.declared.tree.TypeName.TheVariants as Y;
ghost use Rattle.syntax.specs.Trees.{EmptyS, ReturnS, FieldM, no_stmts};
ghost use Rattle.typing.specs.declared.fault.TypeFault.TheVariants.{UnknownName, NoRule, NotALock, MissingReturn, TooManyLocals};
ghost use Rattle.typing.specs.Classes.{field_numbers, ancestors_in, inherited_count, runner, class_of_number, own_field_numbers, is_final_in};
ghost use Rattle.typing.specs.Programs.{all_there, chosen_by_order, inserted, ascending, method_faults, method_core, member_type_faults, fields_core, program_type_faults, core_of, IsFirstTypeFault, IsCoreOf};
ghost use Rattle.front_examples.specs.Written.{name, field_tree, field, method_tree, bare_method, lock_tree, one_stmt};
ghost use Rattle.front_examples.specs.Shop.{shop, shop_table, n_param, right_constructor};
ghost use Rattle.front_examples.specs.Faulty.{numbered_locals};
ghost use Rattle.front_examples.specs.Knots.{core_path};
ghost use Rattle.front_examples.specs.Typing.{var_n};
ghost use Rattle.front_examples.specs.Whole.{shop_core, jobs_table, counter_tree, two_faults, locking};

/// Whole programs: that of the shop, and the counter program that the examples of the rules and of the machine speak of.
pub fn what_core_programs_are()
    ensures shop { core_of shop ≡ Some shop_core }
    ensures no_faults { program_type_faults shop ≡ [] }
    ensures is_core { IsCoreOf shop shop_core }
    ensures counter { core_of counter_tree ≡ Some counter }
    ensures no_core { core_of two_faults ≡ None }
    ensures faults { program_type_faults two_faults ≡ NotALock 4 ∷ NoRule 11 ∷ MissingReturn 99 ∷ NoRule 21 ∷ [] }
    ensures told { IsFirstTypeFault two_faults (NotALock 4) }
    ensures not_told { IsFirstTypeFault two_faults (NoRule 11) → ⊥ }
{}

/// The fields of a class are those from above, the furthest ancestor's first, and then its own; `run` is the class's own or an inherited one.
pub fn what_core_classes_have()
    ensures fields { map (field_numbers jobs_table) (0 ∷ 1 ∷ 2 ∷ 3 ∷ []) ≡ (1 ∷ 0 ∷ []) ∷ (1 ∷ []) ∷ (1 ∷ 0 ∷ 2 ∷ []) ∷ [] ∷ [] }
    ensures ancestors { map (ancestors_in jobs_table) (0 ∷ 1 ∷ 2 ∷ []) ≡ (1 ∷ []) ∷ [] ∷ (0 ∷ 1 ∷ []) ∷ [] }
    ensures inherited { map (inherited_count jobs_table) (0 ∷ 1 ∷ 2 ∷ []) ≡ 1 ∷ 0 ∷ 2 ∷ [] }
    ensures own_before_its_class_above { class_of_number jobs_table 0 ≡ Some (record { fields = 1 ∷ 0 ∷ []; finals = []; run = Some 1; above = Some 1; targets = (0, 0) ∷ (1, 1) ∷ (2, 0) ∷ [] }) }
    ensures above { class_of_number jobs_table 1 ≡ Some (record { fields = 1 ∷ []; finals = []; run = None; above = None; targets = (2, 2) ∷ [] }) }
    ensures below { class_of_number jobs_table 2 ≡ Some (record { fields = 1 ∷ 0 ∷ 2 ∷ []; finals = 2 ∷ []; run = Some 1; above = Some 0; targets = (0, 3) ∷ (1, 1) ∷ (2, 3) ∷ (3, 3) ∷ [] }) }
    ensures no_class { class_of_number jobs_table 9 ≡ None }
    ensures finals { map is_final_in (slice_get jobs_table.fields 2 ∷ slice_get jobs_table.fields 0 ∷ slice_get jobs_table.fields 9 ∷ []) ≡ true ∷ false ∷ false ∷ [] }
    ensures numbers { map own_field_numbers (slice_get jobs_table.classes 2 ∷ slice_get jobs_table.classes 9 ∷ []) ≡ (2 ∷ []) ∷ [] ∷ [] }
{}

/// A method has its slots behind `this` and its parameters, its locks in ascending order, each once, and a body.
pub fn what_core_methods_are()
    ensures method { method_core shop_table 1 locking ≡ Some (record {
      class = 1;
      place_at = 3;
      annotated = true;
      requires_ = core_path 0 [] ∷ core_path 0 (2 ∷ []) ∷ [];
      params = (true, T.Int) ∷ [];
      result = None;
      slots = 3;
      body = core.BlockS (core.and_stmt (core.LocalS 2 false T.Int (core.IntE (pos 7))) core.no_stmts);
    }) }
    ensures parameter { method_core shop_table 0 (method_tree (name (codes "m") 3) (n_param ∷ []) (Some Y.Int) (one_stmt (ReturnS (Some (var_n 8)) 7))) ≡ Some (record {
      class = 0;
      place_at = 3;
      annotated = false;
      requires_ = [];
      params = (true, T.Int) ∷ [];
      result = Some T.Int;
      slots = 2;
      body = core.BlockS (core.and_stmt (core.ReturnS (Some (core.VarE 1 true T.Int))) core.no_stmts);
    }) }
    ensures unknown_lock { method_core shop_table 0 locking ≡ None }
    ensures faults_of_locks { method_faults shop_table 0 locking ≡ UnknownName 5 ∷ UnknownName 6 ∷ [] }
    ensures missing_return { method_faults shop_table 0 (method_tree (name (codes "m") 3) [] (Some Y.Int) (one_stmt (EmptyS 7))) ≡ MissingReturn 99 ∷ [] }
    ensures returned { method_faults shop_table 0 (method_tree (name (codes "m") 3) (n_param ∷ []) (Some Y.Int) (one_stmt (ReturnS (Some (var_n 8)) 7))) ≡ [] }
    ensures many_locals { method_faults shop_table 0 (method_tree (name (codes "m") 3) [] None (numbered_locals 100 64)) ≡ [] }
    ensures too_many_locals { method_faults shop_table 0 (method_tree (name (codes "m") 3) [] None (numbered_locals 100 65)) ≡ TooManyLocals 164 ∷ [] }
    ensures void { method_faults shop_table 0 (method_tree (name (codes "m") 3) [] None (one_stmt (EmptyS 7))) ≡ [] }
    ensures lock_of_another_parameter { method_faults shop_table 0 (record (method_tree (name (codes "m") 3) (n_param ∷ []) None no_stmts) { locks = lock_tree (Some (name (codes "n") 5)) [] 5 ∷ [] }) ≡ NotALock 5 ∷ [] }
{}

/// A field's index follows those from above, and its guard begins at `this`.
pub fn what_core_fields_are()
    ensures second { fields_core shop_table 1 2 (field false Y.Int (name (codes "a") 1) ∷ bare_method (name (codes "m") 2) ∷ field true Y.Boolean (name (codes "b") 3) ∷ []) ≡
        Some (record { class = 1; index = 2; is_final = false; ty = T.Int; guard = None; writes_only = false })
        ∷ Some (record { class = 1; index = 3; is_final = true; ty = T.Boolean; guard = None; writes_only = false }) ∷ [] }
    ensures guarded { fields_core shop_table 1 0 (FieldM (record (field_tree false Y.Int (name (codes "a") 1)) { guard = Some (lock_tree None (name (codes "twin") 5 ∷ []) 4); writes_only = true }) ∷ []) ≡
        Some (record { class = 1; index = 0; is_final = false; ty = T.Int; guard = Some (core_path 0 (2 ∷ [])); writes_only = true }) ∷ [] }
    ensures no_guard { fields_core shop_table 0 0 (FieldM (record (field_tree false Y.Int (name (codes "a") 1)) { guard = Some (lock_tree None (name (codes "price") 5 ∷ []) 4) }) ∷ []) ≡ None ∷ [] }
    ensures faults { member_type_faults shop_table 0 (FieldM (record (field_tree false Y.Int (name (codes "a") 1)) { guard = Some (lock_tree None (name (codes "price") 5 ∷ []) 4) })) ≡ NotALock 4 ∷ [] }
    ensures no_faults { member_type_faults shop_table 0 (field false Y.Int (name (codes "a") 1)) ≡ [] }
    ensures no_variable { member_type_faults shop_table 0 (FieldM (record (field_tree false Y.Int (name (codes "a") 1)) { guard = Some (lock_tree (Some (name (codes "n") 4)) [] 4) })) ≡ UnknownName 4 ∷ [] }
    ensures constructor { member_type_faults shop_table 0 right_constructor ≡ [] }
{}

/// Paths in ascending order, each once, and lists of parts of which none is missing.
pub fn how_parts_are_put_together()
    ensures ascending { ascending (core_path 1 [] ∷ core_path 0 (3 ∷ []) ∷ core_path 0 [] ∷ core_path 1 [] ∷ []) ≡ core_path 0 [] ∷ core_path 0 (3 ∷ []) ∷ core_path 1 [] ∷ [] }
    ensures first { inserted (core_path 0 []) (core_path 1 [] ∷ []) ≡ core_path 0 [] ∷ core_path 1 [] ∷ [] }
    ensures last { inserted (core_path 2 []) (core_path 1 [] ∷ []) ≡ core_path 1 [] ∷ core_path 2 [] ∷ [] }
    ensures there { inserted (core_path 1 []) (core_path 1 [] ∷ core_path 2 [] ∷ []) ≡ core_path 1 [] ∷ core_path 2 [] ∷ [] }
    ensures by_order { map (λ o. chosen_by_order o T.Int T.Boolean (T.Class 3)) (Less ∷ Equal ∷ Greater ∷ []) ≡ T.Int ∷ T.Boolean ∷ T.Class 3 ∷ [] }
    ensures all { all_there (Some T.Int ∷ Some T.Boolean ∷ []) ≡ Some (T.Int ∷ T.Boolean ∷ []) }
    ensures one_missing { all_there (Some T.Int ∷ None ∷ []) ≡ None }
    ensures first_missing { all_there (None ∷ Some T.Int ∷ []) ≡ None }
    ensures runs { map (λ m. runner jobs_table 2 9 m) jobs_table.methods ≡ 3 ∷ 1 ∷ 3 ∷ 3 ∷ 9 ∷ [] }
{}

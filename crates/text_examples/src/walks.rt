//! Walks through bodies by levels of locks: what they come to, under which level and with which locks; and circles of threads.
ghost use Rattle.std.specs.Prelude.{◌≡◌, true, false, [], ◌∷◌, map, Some, None};
ghost use Rattle.core_program.specs.declared.types.CoreOp.TheVariants.{Add};
ghost use Rattle.core_program.specs.declared.types.CoreType.TheVariants as type;
ghost use Rattle.core_program.specs.Core.{NullE, ThisE, VarE, NotE, NegE, BinaryE, AndE, OrE, GetE, CallE, NewE, no_exprs, and_expr};
ghost use Rattle.core_program.specs.Core.{EmptyS, BlockS, LocalS, SetVarS, SetFieldS, DoS, IfS, WhileS, SyncS, ReturnS, PrintS, StartS, no_stmts, and_stmt};
ghost use Rattle.core_program.specs.Examples.{this_path, plain_method};
ghost use Rattle.levels.specs.SlotTypes.{local_types, slot_types, result_slot_type, taken_by_method, taken_by_new, expression_type, top_type, under_types, taken_types, dropped_types};
ghost use Rattle.levels.specs.Suited.{brought, pushed_types};
ghost use Rattle.levels.specs.Walks.{level_in, class_of_slot, last_type, lock_class, syncs_in, expr_visits, visits, body_visits};
ghost use Rattle.levels.specs.Contexts.{Context, IsBadAt};
ghost use Rattle.levels.specs.Circles.{Circle};
ghost use Rattle.core_examples.specs.Bodies.{nothing_held, this_held, one_path};
ghost use Rattle.core_examples.specs.Small.{one};
ghost use Rattle.text_examples.specs.Walked.{buf, other, buffers, to_path, of_buffers, all_one, no_levels, Calls, Takes, seen_of_visit, length_call, run_call, sees_length, sees_run, take_this, held_in_append, each_waits};

/// The types of slots: `this`, the parameters, and the locals in order; and of what stands on the operands.
pub fn which_types_slots_have()
    ensures no_locals { map local_types (EmptyS ∷ SetVarS 1 one ∷ []) ≡ [] ∷ [] ∷ [] }
    ensures local { local_types (LocalS 1 true buf ThisE) ≡ buf ∷ [] }
    ensures block { local_types (BlockS (and_stmt (LocalS 1 true buf ThisE) (and_stmt (LocalS 2 false type.Int one) no_stmts))) ≡ buf ∷ type.Int ∷ [] }
    ensures branches { local_types (IfS one (BlockS (and_stmt (LocalS 1 true buf ThisE) no_stmts)) (BlockS (and_stmt (LocalS 2 false type.Int one) no_stmts))) ≡ buf ∷ type.Int ∷ [] }
    ensures repeated { local_types (WhileS one (BlockS (and_stmt (LocalS 1 true buf ThisE) no_stmts))) ≡ buf ∷ [] }
    ensures locked { local_types (SyncS this_path (BlockS (and_stmt (LocalS 1 true buf ThisE) no_stmts))) ≡ buf ∷ [] }
    ensures slots { slot_types (record (plain_method 2 0 false (LocalS 2 false type.Boolean one)) { params = (true, buf) ∷ [] }) ≡ type.Class 2 ∷ buf ∷ type.Boolean ∷ [] }
    ensures result { map result_slot_type (None ∷ Some (record (plain_method 0 0 false EmptyS) { result = Some buf }) ∷ Some (plain_method 0 0 false EmptyS) ∷ []) ≡ None ∷ Some buf ∷ None ∷ [] }
    ensures parameters { map taken_by_method (None ∷ Some (record (plain_method 0 0 false EmptyS) { params = (true, buf) ∷ (false, type.Int) ∷ [] }) ∷ []) ≡ [] ∷ (buf ∷ type.Int ∷ []) ∷ [] }
    ensures final_fields { map (taken_by_new buffers) (None ∷ Some (record { fields = 0 ∷ 1 ∷ []; finals = 1 ∷ []; run = None; above = None; targets = [] }) ∷ []) ≡ [] ∷ (buf ∷ []) ∷ [] }
    ensures expressions { map (expression_type buffers (type.Class 1 ∷ buf ∷ [])) (ThisE ∷ other ∷ AndE ThisE other ∷ OrE ThisE other ∷ GetE ThisE 2 ∷ CallE other 0 no_exprs ∷ NewE 2 no_exprs ∷ NullE ∷ VarE 2 true buf ∷ [])
        ≡ Some (type.Class 1) ∷ Some buf ∷ Some buf ∷ Some buf ∷ Some buf ∷ Some type.Int ∷ Some (type.Class 2) ∷ None ∷ None ∷ [] }
    ensures pushed { map (λ e. pushed_types buffers all_one (type.Class 1 ∷ buf ∷ []) e (None ∷ [])) (length_call ∷ run_call ∷ []) ≡ (Some type.Int ∷ None ∷ []) ∷ (None ∷ []) ∷ [] }
    ensures brought_back { map brought (None ∷ Some type.Int ∷ []) ≡ [] ∷ (Some type.Int ∷ []) ∷ [] }
    ensures tops { map top_type ([] ∷ (Some buf ∷ None ∷ []) ∷ []) ≡ None ∷ Some buf ∷ [] }
    ensures under_tops { map under_types ([] ∷ (Some buf ∷ None ∷ []) ∷ []) ≡ [] ∷ (None ∷ []) ∷ [] }
    ensures taken { taken_types 2 (Some type.Int ∷ []) (Some buf ∷ Some type.Boolean ∷ None ∷ []) ≡ Some type.Boolean ∷ Some buf ∷ Some type.Int ∷ [] }
    ensures dropped { dropped_types 2 (Some buf ∷ None ∷ Some type.Boolean ∷ []) ≡ Some type.Boolean ∷ [] }
{}

/// The level and the class of a lock, and how many `synchronized` a statement has.
pub fn which_classes_locks_have()
    ensures levels { map (level_in (3 ∷ 7 ∷ [])) (0 ∷ 1 ∷ 2 ∷ []) ≡ 3 ∷ 7 ∷ 0 ∷ [] }
    ensures classes { map class_of_slot (Some (type.Class 2) ∷ Some type.Int ∷ Some type.Boolean ∷ None ∷ []) ≡ 2 ∷ 0 ∷ 0 ∷ 0 ∷ [] }
    ensures last { map (last_type buffers (Some (type.Class 1))) ([] ∷ (2 ∷ []) ∷ (2 ∷ 0 ∷ []) ∷ (9 ∷ []) ∷ []) ≡ Some (type.Class 1) ∷ Some buf ∷ Some type.Int ∷ None ∷ [] }
    ensures locks { map (lock_class buffers (type.Class 1 ∷ type.Class 2 ∷ [])) (this_path ∷ one_path ∷ to_path ∷ []) ≡ 1 ∷ 2 ∷ 0 ∷ [] }
    ensures counted { map syncs_in (EmptyS ∷ take_this ∷ SyncS one_path take_this ∷ IfS one take_this (SyncS one_path take_this) ∷ WhileS one take_this ∷ PrintS one ∷ []) ≡ 0 ∷ 1 ∷ 2 ∷ 3 ∷ 1 ∷ 0 ∷ [] }
    ensures in_a_block { syncs_in (BlockS (and_stmt take_this (and_stmt (SyncS one_path take_this) no_stmts))) ≡ 3 }
{}

/// A walk comes to the calls of an expression in order; each method that may run knows what is held by its own relevant paths.
pub fn what_walks_find_in_expressions()
    ensures one_part { map (λ e. map seen_of_visit (expr_visits buffers of_buffers e this_held 5)) (NotE length_call ∷ NegE length_call ∷ GetE length_call 0 ∷ []) ≡ (sees_length ∷ []) ∷ (sees_length ∷ []) ∷ (sees_length ∷ []) ∷ [] }
    ensures two_parts { map (λ e. map seen_of_visit (expr_visits buffers of_buffers e this_held 5)) (BinaryE Add length_call run_call ∷ AndE length_call run_call ∷ OrE length_call run_call ∷ NewE 0 (and_expr length_call (and_expr run_call no_exprs)) ∷ [])
        ≡ (sees_length ∷ sees_run ∷ []) ∷ (sees_length ∷ sees_run ∷ []) ∷ (sees_length ∷ sees_run ∷ []) ∷ (sees_length ∷ sees_run ∷ []) ∷ [] }
    ensures none { map (λ e. map seen_of_visit (expr_visits buffers of_buffers e this_held 5)) (one ∷ ThisE ∷ other ∷ []) ≡ [] ∷ [] ∷ [] ∷ [] }
    ensures call { map seen_of_visit (expr_visits buffers of_buffers (CallE length_call 1 (and_expr run_call no_exprs)) this_held 5) ≡ sees_length ∷ sees_run ∷ Calls 1 5 (false ∷ false ∷ false ∷ false ∷ []) ∷ [] }
    ensures argument { map seen_of_visit (expr_visits buffers of_buffers (CallE other 1 (and_expr ThisE no_exprs)) this_held 5) ≡ Calls 1 5 (false ∷ false ∷ false ∷ true ∷ []) ∷ [] }
{}

/// A `synchronized` on a lock that is held is walked as it is; else under the greater one of the walk's level and the lock's, after a bad one where
/// the lock's level isn't above the walk's.
pub fn what_walks_find_at_locks()
    ensures held_already { map seen_of_visit (visits buffers of_buffers no_levels (buf ∷ []) (SyncS this_path (DoS length_call false)) 3 this_held 5) ≡ sees_length ∷ [] }
    ensures above { map seen_of_visit (visits buffers of_buffers (λ c. 6) (buf ∷ []) (SyncS this_path (DoS length_call false)) 3 nothing_held 5) ≡ Calls 0 6 (true ∷ false ∷ true ∷ false ∷ []) ∷ [] }
    ensures not_above { map seen_of_visit (visits buffers of_buffers (λ c. 5) (buf ∷ []) (SyncS this_path (DoS length_call false)) 3 nothing_held 5) ≡ Takes 3 0 5 ∷ sees_length ∷ [] }
    ensures below { map seen_of_visit (visits buffers of_buffers (λ c. 4) (buf ∷ []) (SyncS this_path (DoS length_call false)) 3 nothing_held 5) ≡ Takes 3 0 5 ∷ sees_length ∷ [] }
    ensures of_its_class { map seen_of_visit (visits buffers of_buffers (λ c. c) (buf ∷ type.Class 7 ∷ []) (SyncS one_path (DoS length_call false)) 3 nothing_held 5) ≡ Calls 0 7 (false ∷ false ∷ false ∷ false ∷ []) ∷ [] }
    ensures inner { map seen_of_visit (visits buffers of_buffers no_levels (buf ∷ type.Class 1 ∷ []) (SyncS this_path (SyncS one_path EmptyS)) 3 this_held 5) ≡ Takes 4 1 5 ∷ [] }
    ensures inner_of_two { map seen_of_visit (visits buffers of_buffers no_levels (buf ∷ type.Class 1 ∷ []) (SyncS this_path (SyncS one_path EmptyS)) 3 nothing_held 5) ≡ Takes 3 0 5 ∷ Takes 4 1 5 ∷ [] }
{}

/// A walk goes through the parts of each statement in order; a `synchronized` has its place in written order.
pub fn what_walks_find_in_statements()
    ensures without_calls { map (λ s. map seen_of_visit (visits buffers of_buffers no_levels (buf ∷ []) s 3 this_held 5)) (EmptyS ∷ ReturnS None ∷ []) ≡ [] ∷ [] ∷ [] }
    ensures one_call { map (λ s. map seen_of_visit (visits buffers of_buffers no_levels (buf ∷ []) s 3 this_held 5))
        (LocalS 1 true type.Int length_call ∷ SetVarS 1 length_call ∷ DoS length_call true ∷ ReturnS (Some length_call) ∷ PrintS length_call ∷ StartS length_call ∷ [])
        ≡ (sees_length ∷ []) ∷ (sees_length ∷ []) ∷ (sees_length ∷ []) ∷ (sees_length ∷ []) ∷ (sees_length ∷ []) ∷ (sees_length ∷ []) ∷ [] }
    ensures two_calls { map (λ s. map seen_of_visit (visits buffers of_buffers no_levels (buf ∷ []) s 3 this_held 5))
        (SetFieldS length_call 0 run_call ∷ WhileS length_call (DoS run_call false) ∷ BlockS (and_stmt (DoS length_call true) (and_stmt (DoS run_call false) no_stmts)) ∷ [])
        ≡ (sees_length ∷ sees_run ∷ []) ∷ (sees_length ∷ sees_run ∷ []) ∷ (sees_length ∷ sees_run ∷ []) ∷ [] }
    ensures branches { map seen_of_visit (visits buffers of_buffers no_levels (buf ∷ []) (IfS length_call (DoS run_call false) (DoS length_call true)) 3 this_held 5) ≡ sees_length ∷ sees_run ∷ sees_length ∷ [] }
    ensures places_in_branches { map seen_of_visit (visits buffers of_buffers no_levels (buf ∷ []) (IfS one (SyncS this_path take_this) take_this) 3 nothing_held 5) ≡ Takes 3 0 5 ∷ Takes 5 0 5 ∷ [] }
    ensures place_in_a_loop { map seen_of_visit (visits buffers of_buffers no_levels (buf ∷ []) (WhileS one take_this) 3 nothing_held 5) ≡ Takes 3 0 5 ∷ [] }
    ensures places_in_a_block { map seen_of_visit (visits buffers of_buffers no_levels (buf ∷ []) (BlockS (and_stmt (SyncS this_path take_this) (and_stmt take_this no_stmts))) 3 nothing_held 5) ≡ Takes 3 0 5 ∷ Takes 5 0 5 ∷ [] }
    ensures behind_a_local { map seen_of_visit (visits buffers of_buffers no_levels (buf ∷ buf ∷ []) (BlockS (and_stmt (LocalS 1 true buf ThisE) (and_stmt (SyncS one_path EmptyS) no_stmts))) 3 this_held 5) ≡ [] }
{}

/// In `append` the second lock is of the class of the first: no level is above itself. So it is in the context in which `run` calls it.
pub fn which_walks_are_bad()
    ensures parameter { map seen_of_visit (body_visits buffers of_buffers all_one (record (plain_method 0 0 true (SyncS one_path EmptyS)) { params = (true, buf) ∷ [] }) nothing_held 0) ≡ [] }
    ensures first_place { map seen_of_visit (body_visits buffers of_buffers no_levels (plain_method 0 0 true take_this) nothing_held 0) ≡ Takes 0 0 0 ∷ [] }
    ensures main { Context buffers of_buffers all_one 3 (λ q. false) 0 }
    ensures start { Context buffers of_buffers all_one 2 (λ q. false) 0 }
    ensures call { Context buffers of_buffers all_one 1 held_in_append 0 }
    ensures bad { IsBadAt buffers of_buffers all_one 1 1 0 1 }
    ensures circle { Circle each_waits }
{}

//! Operands, objects, the heap, and the state at the start.
ghost use Rattle.std.specs.Prelude.{◌≡◌, ℕ, pos, true, false, [], ◌∷◌, Some, None, slice_get};
ghost use Rattle.std.specs.FinMap as map;
ghost use Rattle.std.specs.declared.cmp.Ordering.TheVariants.{Less, Equal, Greater};
ghost use Rattle.core_program.specs.declared.types.CoreType.TheVariants as type;
ghost use Rattle.core_program.specs.Examples.{counter};
ghost use Rattle.state.specs.declared.value.Value.TheVariants.{Int, Truth, Null, Ref};
ghost use Rattle.state.specs.Values.{default_value, top, under, popped, dropped, as_int, as_truth, address_of, address_eq};
ghost use Rattle.state.specs.Memory.{made_by, next_address, field_value, with_field, with_lock, value_in, address_cmp, new_values};
ghost use Rattle.state.specs.States.{Ready, new_slots, new_object, initial};
ghost use Rattle.core_examples.specs.Fields.{nodes};
ghost use Rattle.core_examples.specs.Seen.{two_parameters, four_fields, field_at, object_of, here, there, seven, minus_two, yes_value, no_value};
ghost use Rattle.core_examples.specs.Small.{second_object, three_objects, lock_at};

/// The topmost operand comes first; a missing one is null, and one of another kind reads as 0, false or no address.
pub fn what_operands_are()
    ensures top { top (seven ∷ minus_two ∷ []) ≡ seven }
    ensures no_top { top [] ≡ Null }
    ensures under { under (seven ∷ minus_two ∷ []) ≡ minus_two ∷ [] }
    ensures nothing_under { under [] ≡ [] }
    ensures taken { popped 2 [] (seven ∷ minus_two ∷ yes_value ∷ []) ≡ minus_two ∷ seven ∷ [] }
    ensures too_few { popped 2 [] (seven ∷ []) ≡ Null ∷ seven ∷ [] }
    ensures dropped { dropped 2 (seven ∷ minus_two ∷ yes_value ∷ []) ≡ yes_value ∷ [] }
    ensures all_dropped { dropped 2 (seven ∷ []) ≡ [] }
    ensures number { as_int seven ≡ pos 7 }
    ensures no_number { as_int yes_value ≡ pos 0 }
    ensures truth { as_truth yes_value ≡ true }
    ensures no_truth { as_truth seven ≡ false }
    ensures address { address_of (Ref here) ≡ Some here }
    ensures address_of_null { address_of Null ≡ None }
    ensures address_of_a_number { address_of seven ≡ None }
    ensures same_address { address_eq here here ≡ true }
    ensures another_thread { address_eq here there ≡ false }
    ensures another_count { address_eq here second_object ≡ false }
{}

/// Addresses are ordered by their threads, and then by their counts.
pub fn how_addresses_are_ordered()
    ensures by_thread { address_cmp (record { thread = 0; count = 5 }) (record { thread = 1; count = 0 }) ≡ Less }
    ensures by_count { address_cmp (record { thread = 1; count = 1 }) (record { thread = 1; count = 0 }) ≡ Greater }
    ensures same { address_cmp here here ≡ Equal }
{}

/// What a field or slot holds at first, by its type.
pub fn what_stands_at_first()
    ensures number { default_value type.Int ≡ Int (pos 0) }
    ensures truth { default_value type.Boolean ≡ Truth false }
    ensures object { (c : ℕ) → default_value (type.Class c) ≡ Null }
    ensures new_object { new_object nodes 0 (Ref here ∷ seven ∷ Ref there ∷ []) ≡
        record { class = 0; values = Ref here ∷ Null ∷ seven ∷ Ref there ∷ Int (pos 0) ∷ Int (pos 0) ∷ Int (pos 0) ∷ Int (pos 0) ∷ [] } }
    ensures no_field { new_values nodes (8 ∷ 0 ∷ []) (seven ∷ []) ≡ Null ∷ seven ∷ [] }
    ensures no_class { new_object nodes 1 (seven ∷ []) ≡ record { class = 1; values = [] } }
    ensures slots { new_slots two_parameters (Ref here) (seven ∷ minus_two ∷ []) ≡ Ref here ∷ seven ∷ minus_two ∷ [] }
    ensures free_slots { new_slots two_parameters (Ref here) [] ≡ Ref here ∷ Int (pos 0) ∷ Int (pos 0) ∷ [] }
{}

/// A field's value stands at its index in an object whose class lists it there.
pub fn what_objects_hold()
    ensures value { field_value four_fields 1 (Some (object_of 0)) (slice_get four_fields.fields 1) ≡ Some (Int (pos 2)) }
    ensures of_a_class_below { field_value four_fields 2 (Some (object_of 1)) (slice_get four_fields.fields 2) ≡ Some (Int (pos 3)) }
    ensures no_object { field_value four_fields 1 None (slice_get four_fields.fields 1) ≡ None }
    ensures no_field { field_value four_fields 4 (Some (object_of 0)) (slice_get four_fields.fields 4) ≡ None }
    ensures not_listed { field_value four_fields 4 (Some (object_of 0)) (Some (field_at 1 false None false)) ≡ None }
    ensures past_its_fields { field_value nodes 8 (Some (object_of 0)) (Some (field_at 8 false None false)) ≡ None }
    ensures no_class { field_value four_fields 1 (Some (object_of 2)) (slice_get four_fields.fields 1) ≡ None }
    ensures no_value { field_value four_fields 1 (Some (record { class = 0; values = seven ∷ [] })) (slice_get four_fields.fields 1) ≡ None }
{}

/// Objects are counted by the thread that made them; a field changes in one object alone, and a lock at one address.
pub fn what_memory_holds()
    ensures made { made_by 0 three_objects ≡ 2 }
    ensures made_by_another { made_by 1 three_objects ≡ 1 }
    ensures made_by_none { made_by 2 three_objects ≡ 0 }
    ensures in_the_heap { value_in four_fields three_objects second_object 1 ≡ Some (Int (pos 2)) }
    ensures not_in_the_heap { value_in four_fields three_objects (record { thread = 2; count = 0 }) 1 ≡ None }
    ensures next { next_address 0 three_objects ≡ record { thread = 0; count = 2 } }
    ensures field { with_field second_object 1 seven three_objects ≡
        map.from_sorted ((here, object_of 0) ∷ (second_object, record { class = 0; values = Int (pos 1) ∷ seven ∷ Int (pos 3) ∷ Int (pos 4) ∷ [] }) ∷ (there, object_of 1) ∷ []) }
    ensures no_object { with_field (record { thread = 2; count = 0 }) 1 seven three_objects ≡ three_objects }
    ensures taken { with_lock here (Some (record { holder = 1; count = 2 })) (map.from_sorted (lock_at there)) ≡
        map.from_sorted ((here, record { holder = 1; count = 2 }) ∷ (there, record { holder = 1; count = 2 }) ∷ []) }
    ensures held_otherwise { with_lock there (Some (record { holder = 1; count = 3 })) (map.from_sorted (lock_at there)) ≡ map.from_sorted ((there, record { holder = 1; count = 3 }) ∷ []) }
    ensures free { with_lock there None (map.from_sorted (lock_at there)) ≡ map.from_sorted [] }
    ensures free_already { with_lock here None (map.from_sorted (lock_at there)) ≡ map.from_sorted (lock_at there) }
{}

/// At the start there is an object of `Main`, and thread 0 is ready to run `main` on it.
pub fn what_the_start_is()
    ensures { initial counter ≡ record {
      heap = map.from_sorted ((here, record { class = 2; values = [] }) ∷ []);
      locks = map.from_sorted [];
      threads = Ready here 2 ∷ [];
      output = [];
    } }
{}

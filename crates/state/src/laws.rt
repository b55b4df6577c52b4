//! Laws of addresses, operands and memory.
ghost use Rattle.std.specs.Prelude.{◌≡◌, ◌≢◌, ◌↔◌, ◌+◌, ℕ, List, Some, None, length, slice_get};
ghost use Rattle.std.specs.Cmp.{IsTotalOrder};
ghost use Rattle.std.specs.FinMap as map;
ghost use Rattle.std.specs.declared.cmp.Ordering.TheVariants.{Equal};
ghost use Rattle.core_program.specs.Core.{Program, Field};
ghost use Rattle.state.specs.declared.value.Address.{Address};
ghost use Rattle.state.specs.declared.value.Value.{Value};
ghost use Rattle.state.specs.Values.{popped};
ghost use Rattle.state.specs.Memory.{Heap, Object, address_cmp, value_in, with_field, next_address, IsNumbered};

/// The order of addresses is total, and only equal ones tie.
pub fn address_laws()
    ensures total { IsTotalOrder address_cmp }
    ensures equal { (a b : Address) → (address_cmp a b ≡ Equal) ↔ (a ≡ b) }
{}

/// As many operands are taken as are asked for, also where some are missing.
pub fn operand_laws()
    ensures length { (n : ℕ) (found ops : List Value) → length (popped n found ops) ≡ n + length found }
{}

/// A written field reads as written, every other one as before; a new object changes no field of another.
pub fn memory_laws()
    ensures written { (P : Program) (heap : Heap) (a : Address) (f : ℕ) (field : Field) (old v : Value) →
        slice_get P.fields f ≡ Some field → value_in P heap a f ≡ Some old →
        value_in P (with_field a field.index v heap) a f ≡ Some v }
    ensures other_field { (P : Program) (heap : Heap) (a b : Address) (index : ℕ) (v : Value) (f : ℕ) (field : Field) →
        slice_get P.fields f ≡ Some field → field.index ≢ index →
        value_in P (with_field a index v heap) b f ≡ value_in P heap b f }
    ensures other_object { (P : Program) (heap : Heap) (a b : Address) (index : ℕ) (v : Value) (f : ℕ) → b ≢ a →
        value_in P (with_field a index v heap) b f ≡ value_in P heap b f }
    ensures new_object { (P : Program) (heap : Heap) (a b : Address) (o : Object) (f : ℕ) → b ≢ a →
        value_in P (map.insert heap a o) b f ≡ value_in P heap b f }
{}

/// A new object at its thread's next address, and a written field, leave the objects numbered.
pub fn numbering_laws()
    ensures new { (heap : Heap) (t : ℕ) (o : Object) → IsNumbered heap → IsNumbered (map.insert heap (next_address t heap) o) }
    ensures written { (heap : Heap) (a : Address) (index : ℕ) (v : Value) → IsNumbered heap → IsNumbered (with_field a index v heap) }
    ensures free { (heap : Heap) (t : ℕ) → IsNumbered heap → map.get heap (next_address t heap) ≡ None }
{}

//! The rules where no class extends another.

ghost use Rattle.std.specs.Prelude.{◌≡◌, ◌==◌, ℕ, None};
ghost use Rattle.classes.specs.Table.{TableData, above_in_table, is_of_kind};
ghost use Rattle.core_program.specs.declared.types.CoreOp.{CoreOp};
ghost use Rattle.core_program.specs.Types.{NodeType, fits, binary_type};
ghost use Rattle.typing.specs.Rules.{all_fields_of_class, own_fields};

/// A class that extends none has its own fields alone. Where no class extends another, a class fits itself alone.
pub fn plain_rules()
    ensures fields { (t : TableData) (c : ℕ) → above_in_table t c ≡ None → all_fields_of_class t c ≡ own_fields t c }
    ensures fits { (t : TableData) → ((c : ℕ) → above_in_table t c ≡ None) → (a b : NodeType) → fits (is_of_kind t) a b ≡ fits (λ c d. c == d) a b }
    ensures operators { (t : TableData) → ((c : ℕ) → above_in_table t c ≡ None) → (op : CoreOp) (a b : NodeType)
        → binary_type (is_of_kind t) op a b ≡ binary_type (λ c d. c == d) op a b }
{}

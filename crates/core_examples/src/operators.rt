//! What each operator gives.
ghost use Rattle.std.specs.Prelude.{◌≡◌, pos, negsuc, Some, None};
ghost use Rattle.core_program.specs.declared.types.CoreOp.TheVariants.{Eq, Ne, Lt, Le, Gt, Ge, Add, Sub, Mul, Div, Rem};
ghost use Rattle.core_program.specs.declared.types.UnaryOp.TheVariants.{Not, Neg};
ghost use Rattle.state.specs.declared.value.Value.TheVariants.{Int, Null, Ref};
ghost use Rattle.state.specs.Values.{unary_value, binary_value};
ghost use Rattle.core_examples.specs.Seen.{seven, minus_two, yes_value, no_value, here, there};

/// Equality of values of each kind; values of two kinds differ.
pub fn what_equality_gives()
    ensures ints { (binary_value Eq seven seven ≡ Some yes_value) }
    ensures other_ints { binary_value Eq seven minus_two ≡ Some no_value }
    ensures truths { binary_value Eq yes_value yes_value ≡ Some yes_value }
    ensures other_truths { binary_value Eq no_value yes_value ≡ Some no_value }
    ensures falses { binary_value Eq no_value no_value ≡ Some yes_value }
    ensures nulls { binary_value Eq Null Null ≡ Some yes_value }
    ensures addresses { binary_value Eq (Ref here) (Ref here) ≡ Some yes_value }
    ensures other_addresses { binary_value Eq (Ref here) (Ref there) ≡ Some no_value }
    ensures null_and_address { binary_value Eq Null (Ref here) ≡ Some no_value }
    ensures not_equal { binary_value Ne seven minus_two ≡ Some yes_value }
    ensures not_different { binary_value Ne seven seven ≡ Some no_value }
{}

/// Comparisons of ints, at lesser, equal and greater ones.
pub fn what_comparisons_give()
    ensures less { binary_value Lt minus_two seven ≡ Some yes_value }
    ensures less_than_itself { binary_value Lt seven seven ≡ Some no_value }
    ensures at_most { binary_value Le seven seven ≡ Some yes_value }
    ensures at_most_a_lesser_one { binary_value Le seven minus_two ≡ Some no_value }
    ensures greater { binary_value Gt seven minus_two ≡ Some yes_value }
    ensures greater_than_itself { binary_value Gt seven seven ≡ Some no_value }
    ensures at_least { binary_value Ge seven seven ≡ Some yes_value }
    ensures at_least_a_greater_one { binary_value Ge minus_two seven ≡ Some no_value }
{}

/// Arithmetic in 32 bits, in the order of the operands; quotient and remainder go towards zero.
pub fn what_arithmetic_gives()
    ensures sum { binary_value Add seven minus_two ≡ Some (Int (pos 5)) }
    ensures sum_past_the_end { binary_value Add (Int (pos 2147483647)) (Int (pos 1)) ≡ Some (Int (negsuc 2147483647)) }
    ensures difference { binary_value Sub seven minus_two ≡ Some (Int (pos 9)) }
    ensures product { binary_value Mul seven minus_two ≡ Some (Int (negsuc 13)) }
    ensures quotient { binary_value Div seven minus_two ≡ Some (Int (negsuc 2)) }
    ensures quotient_of_a_negative { binary_value Div (Int (negsuc 6)) (Int (pos 2)) ≡ Some (Int (negsuc 2)) }
    ensures no_quotient { binary_value Div seven (Int (pos 0)) ≡ None }
    ensures remainder { binary_value Rem seven minus_two ≡ Some (Int (pos 1)) }
    ensures remainder_of_a_negative { binary_value Rem (Int (negsuc 6)) (Int (pos 2)) ≡ Some (Int (negsuc 0)) }
    ensures no_remainder { binary_value Rem seven (Int (pos 0)) ≡ None }
    ensures negated { unary_value Neg seven ≡ Int (negsuc 6) }
    ensures least_negated { unary_value Neg (Int (negsuc 2147483647)) ≡ Int (negsuc 2147483647) }
    ensures not_true { unary_value Not yes_value ≡ no_value }
    ensures not_false { unary_value Not no_value ≡ yes_value }
{}

//! General facts, which the lemma files of this crate prove.
ghost use Rattle.std.specs.Prelude.{◌≡◌, ◌<◌, ◌+◌, ◌-◌, ◌==◌, ◌⊎◌, ◌++◌, ℕ, suc, Bool, true, false, List, [], ◌∷◌, length, take, drop, get_or, Contains, Option, Some, None, option_and_then, slice_get, if◌then◌else◌};
ghost use Rattle.std.specs.List.{list_all};
ghost use Rattle.std.specs.Char.{is_ascii_digit, digit_value};
ghost use Rattle.base.specs.Texts.{KeepsText};

/// A place of two lists, one after the other, is one of the first or one of the second; a list from a place on is the item
/// there and those after it, and up to behind a place those before it and the item there.
pub fn list_laws<T>()
    ensures left { (xs ys : List T) (k : ℕ) → k < length xs → slice_get (xs ++ ys) k ≡ slice_get xs k }
    ensures right { (xs ys : List T) (k : ℕ) → slice_get (xs ++ ys) (length xs + k) ≡ slice_get ys k }
    ensures last { (xs : List T) (x : T) → slice_get (xs ++ (x ∷ [])) (length xs) ≡ Some x }
    ensures found { (xs ys : List T) (k : ℕ) (x : T) → slice_get xs k ≡ Some x → slice_get (xs ++ ys) k ≡ Some x }
    ensures either { (xs ys : List T) (k : ℕ) (x : T) → slice_get (xs ++ ys) k ≡ Some x → (slice_get xs k ≡ Some x) ⊎ ((j : ℕ) × (k ≡ length xs + j) × (slice_get ys j ≡ Some x)) }
    ensures below { (xs : List T) (k : ℕ) → k < length xs → (x : T) × (slice_get xs k ≡ Some x) }
    ensures next { (xs : List T) (k : ℕ) (x : T) → k < length xs → x ≡ get_or xs k x → drop k xs ≡ x ∷ drop (k + 1) xs }
    ensures before { (xs : List T) (k : ℕ) (x : T) → k < length xs → x ≡ get_or xs k x → take (k + 1) xs ≡ take k xs ++ x ∷ [] }
    ensures with { (xs : List T) (k : ℕ) (x : T) → slice_get xs k ≡ Some x → take (k + 1) xs ≡ take k xs ++ x ∷ [] }
    ensures cases { (x y : T) (xs : List T) → Contains (x ∷ xs) y → (x ≡ y) ⊎ Contains xs y }
    ensures later { (x y : T) (xs : List T) → Contains xs y → Contains (x ∷ xs) y }
    ensures passed { (f : T → Bool) (xs : List T) → list_all f xs ≡ true → (x : T) → Contains xs x → f x ≡ true }
{}

/// What is there of two options, one found from the other or under a test, comes from both.
pub fn option_laws<T, U>()
    ensures both { (f : T → Option U) (o : Option T) (y : U) → option_and_then f o ≡ Some y → (x : T) × (o ≡ Some x) × (f x ≡ Some y) }
    ensures same { (b : Bool) (x y z : T) → (b ≡ true → x ≡ y) → (if b then x else z) ≡ (if b then y else z) }
    ensures taken { (b : Bool) (o : Option T) (x : T) → (if b then o else None) ≡ Some x → (b ≡ true) × (o ≡ Some x) }
{}

/// Numbers are equal in either order, and no number is one above or below it.
pub fn number_laws()
    ensures more { (a b : ℕ) → a ≡ b → suc a ≡ 1 + b }
    ensures turned { (a b : ℕ) → (a == b) ≡ (b == a) }
    ensures below { (x c : ℕ) → x < c → (x == c) ≡ false }
    ensures above { (x c : ℕ) → c < x → (x == c) ≡ false }
{}

/// A digit is worth how far it stands from `0`.
pub fn digit_laws()
    ensures worth { (d : ℕ) → is_ascii_digit d ≡ true → digit_value d ≡ d - 48 }
{}

/// A text is kept where nothing or more bytes stand behind it.
pub fn text_laws()
    ensures itself { (old new : List ℕ) → new ≡ old → KeepsText old new }
    ensures more { (old mid new more : List ℕ) → KeepsText old mid → new ≡ mid ++ more → KeepsText old new }
{}

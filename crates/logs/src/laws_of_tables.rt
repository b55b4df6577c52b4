//! Laws of the numbers of words.
ghost use Rattle.std.specs.Prelude.{◌≡◌, ℕ, List};
ghost use Rattle.logs.specs.Numbers.{number_of_word};

/// Different words have different numbers.
pub fn numbers_tell_words_apart()
    ensures { (v w : List ℕ) → number_of_word v ≡ number_of_word w → v ≡ w }
{}

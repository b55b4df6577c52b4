//! Whether two words are the same.
ghost use Rattle.std.specs.Prelude.{◌≡◌, ◌==◌};
ghost use Rattle.logs.specs.Numbers.{number_of_word};

/// Whether two words are the same, and so have the same number.
pub fn is_same(word: &[u8], other: &[u8]) -> bool
    ensures { result ≡ (number_of_word word.now == number_of_word other.now) }
{
    word == other
}

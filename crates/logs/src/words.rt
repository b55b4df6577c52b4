//! Words, and bytes cut at spaces.
ghost use Rattle.std.specs.Prelude.{◌≡◌, ◌<◌, ◌==◌, length, position, IfSome, option_map};
ghost use Rattle.std.specs.List.{list_all};
ghost use Rattle.logs.specs.Words.{is_log_word as is_word_in, is_log_word_byte as may_stand, before_space, behind_space};

/// The most bytes that a word has.
const LONGEST: usize = 255;

/// Whether a byte may stand in a word.
fn is_word_byte(byte: u8) -> bool
    ensures { result ≡ may_stand byte }
{
    byte > 32 && byte != 127
}

/// Whether each of these bytes may stand in a word.
fn are_word_bytes(bytes: &[u8]) -> bool
    ensures { result ≡ list_all may_stand bytes.now }
{
    bytes.iter().all(|byte| is_word_byte(*byte))
}

/// Whether these bytes are a word.
pub fn is_word(bytes: &[u8]) -> bool
    ensures { result ≡ is_word_in bytes.now }
{
    if bytes.is_empty() || bytes.len() > LONGEST {
        return false;
    }
    are_word_bytes(bytes)
}

/// Where the first space stands.
fn space_in(bytes: &[u8]) -> Option<usize>
    ensures place { result ≡ position (λ byte. byte == 32) bytes.now }
    ensures within { IfSome result (λ place. place < length bytes.now) }
{
    bytes.iter().position(|byte| *byte == b' ')
}

/// The bytes before the first space, or all, and those behind it, where there is one.
pub fn cut(bytes: &[u8]) -> (&[u8], Option<&[u8]>)
    ensures word { result.0.now ≡ before_space bytes.now }
    ensures rest { option_map (λ rest. rest.now) result.1 ≡ behind_space bytes.now }
{
    match space_in(bytes) {
        Some(place) => (&bytes[..place], Some(&bytes[place + 1..])),
        None => (bytes, None),
    }
}

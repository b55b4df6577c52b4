//! The text that bytes spell.

ghost use Rattle.std.specs.Prelude.{◌≡◌, ◌≤◌, ◌↔◌, length, IsUtf8, IsOk, IfOk, IfErr};
ghost use Rattle.std.specs.Str.{IsValidUpTo};
ghost use Rattle.lexer.specs.Limits.{longest_source};

use thiserror::Error;

/// The bytes aren't UTF-8. `at` is the length of the longest front of them that is.
#[derive(Clone, Copy, Debug, PartialEq, Eq, Error)]
#[error("not UTF-8 from byte {at} on")]
pub struct NotText {
    pub at: u32,
}

/// The bytes as a text, where they are UTF-8.
pub fn utf8_text(bytes: &[u8]) -> Result<&str, NotText>
    requires { length bytes.now ≤ longest_source }
    ensures exact { IsOk result ↔ IsUtf8 bytes.now }
    ensures same { IfOk result (λ text. text.now ≡ bytes.now) }
    ensures longest { IfErr result (λ e. IsValidUpTo bytes.now e.at) }
{
    match str::from_utf8(bytes) {
        Ok(text) => Ok(text),
        Err(error) => Err(NotText {
            at: error.valid_up_to() as u32,
        }),
    }
}

//! Lines and columns.

ghost use Rattle.std.specs.Prelude.{◌≡◌, ◌+◌, ◌≤◌, ◌==◌, Some, not, length, count_by};
ghost use Rattle.std.specs.List.{suffix_len};
ghost use Rattle.lexer.specs.Places.{is_line_feed, line_of, column_of, place_text};
ghost use Rattle.lexer.specs.Limits.{longest_source};

use std::fmt;

/// A place in a text, written `line:column`. Both count from 1, and the column counts bytes.
#[derive(Clone, Copy, Debug, PartialEq, Eq)]
pub struct Place {
    pub line: u32,
    pub column: u32,
}

impl fmt::Display for Place {
    ghost output = { λ p. Some (place_text p.line p.column) };

    fn fmt<W: fmt::Write>(&self, f: &mut fmt::Formatter<W>) -> fmt::Result {
        write!(f, "{}:{}", self.line, self.column)
    }
}

fn line_feeds(bytes: &[u8]) -> usize
    ensures exact { result ≡ count_by is_line_feed bytes.now }
    ensures within { result ≤ length bytes.now }
{
    bytes.iter().filter(|byte| **byte == b'\n').count()
}

fn last_line(bytes: &[u8]) -> usize
    ensures exact { result ≡ suffix_len (λ c. not (is_line_feed c)) bytes.now }
    ensures within { result ≤ length bytes.now }
{
    bytes
        .iter()
        .rev()
        .take_while(|byte| **byte != b'\n')
        .count()
}

/// The place of the byte at an offset, or of the end of the text. A line ends with LF alone.
pub fn place_of(text: &str, at: u32) -> Place
    requires small { length text.now ≤ longest_source }
    requires within { at ≤ length text.now }
    ensures line { result.line ≡ line_of text.now at }
    ensures column { result.column ≡ column_of text.now at }
{
    let before = &text.as_bytes()[..at as usize];
    Place {
        line: 1 + line_feeds(before) as u32,
        column: 1 + last_line(before) as u32,
    }
}

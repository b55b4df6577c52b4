//! The piece at the start of a text: blanks, a comment, a word, a number or a sign.

ghost use Rattle.std.specs.Prelude.{◌≡◌, ◌+◌, ◌^◌, ◌<◌, ◌≤◌, ◌∷◌, true, length, IfSome, Some};
ghost use Rattle.std.specs.List.{prefix_len};
ghost use Rattle.lexer.specs.Pieces.{is_blank, is_digit, is_word_byte, is_in_line, is_sign, starts_close};
ghost use Rattle.lexer.specs.Reading.{close_end, block_front, slash_front, sign_front, longest_piece};

/// What a piece of a source is.
#[derive(Clone, Copy)]
pub enum Piece {
    Blanks,
    Comment,
    /// A `/*` that is never closed, with all that follows.
    OpenComment,
    Word,
    Number,
    Sign,
}

/// The piece at the start of a text, and its length in bytes.
#[derive(Clone, Copy)]
pub struct Front {
    pub kind: Piece,
    pub len: usize,
}

/// Whether a byte is a blank. Most bytes that are asked are above all blanks, and so one comparison tells them.
fn is_blank(byte: u8) -> bool
    ensures { result ≡ is_blank byte }
{
    byte <= b' ' && matches!(byte, b' ' | b'\t' | b'\n' | 12 | b'\r')
}

fn is_digit(byte: u8) -> bool
    ensures { result ≡ is_digit byte }
{
    matches!(byte, b'0'..=b'9')
}

/// For each byte, 1 where a word may go on with it, and 0 where it may not.
const WORD_BYTES: [u8; 256] = [
    0, 0, 0, 0, 0, 0, 0, 0, 0, 0, 0, 0, 0, 0, 0, 0, 0, 0, 0, 0, 0, 0, 0, 0, 0, 0, 0, 0, 0, 0, 0, 0,
    0, 0, 0, 0, 0, 0, 0, 0, 0, 0, 0, 0, 0, 0, 0, 0, 1, 1, 1, 1, 1, 1, 1, 1, 1, 1, 0, 0, 0, 0, 0, 0,
    0, 1, 1, 1, 1, 1, 1, 1, 1, 1, 1, 1, 1, 1, 1, 1, 1, 1, 1, 1, 1, 1, 1, 1, 1, 1, 1, 0, 0, 0, 0, 1,
    0, 1, 1, 1, 1, 1, 1, 1, 1, 1, 1, 1, 1, 1, 1, 1, 1, 1, 1, 1, 1, 1, 1, 1, 1, 1, 1, 0, 0, 0, 0, 0,
    0, 0, 0, 0, 0, 0, 0, 0, 0, 0, 0, 0, 0, 0, 0, 0, 0, 0, 0, 0, 0, 0, 0, 0, 0, 0, 0, 0, 0, 0, 0, 0,
    0, 0, 0, 0, 0, 0, 0, 0, 0, 0, 0, 0, 0, 0, 0, 0, 0, 0, 0, 0, 0, 0, 0, 0, 0, 0, 0, 0, 0, 0, 0, 0,
    0, 0, 0, 0, 0, 0, 0, 0, 0, 0, 0, 0, 0, 0, 0, 0, 0, 0, 0, 0, 0, 0, 0, 0, 0, 0, 0, 0, 0, 0, 0, 0,
    0, 0, 0, 0, 0, 0, 0, 0, 0, 0, 0, 0, 0, 0, 0, 0, 0, 0, 0, 0, 0, 0, 0, 0, 0, 0, 0, 0, 0, 0, 0, 0,
];

fn is_word_byte(byte: u8) -> bool
    ensures { result ≡ is_word_byte byte }
{
    WORD_BYTES[byte as usize] == 1
}

fn is_in_line(byte: u8) -> bool
    ensures { result ≡ is_in_line byte }
{
    !matches!(byte, b'\n' | b'\r')
}

fn blanks(text: &[u8]) -> usize
    ensures exact { result ≡ prefix_len is_blank text.now }
    ensures within { result ≤ length text.now }
{
    text.iter().take_while(|byte| is_blank(**byte)).count()
}

fn word_bytes(text: &[u8]) -> usize
    ensures exact { result ≡ prefix_len is_word_byte text.now }
    ensures within { result ≤ length text.now }
{
    text.iter().take_while(|byte| is_word_byte(**byte)).count()
}

fn digits(text: &[u8]) -> usize
    ensures exact { result ≡ prefix_len is_digit text.now }
    ensures within { result ≤ length text.now }
{
    text.iter().take_while(|byte| is_digit(**byte)).count()
}

fn rest_of_line(text: &[u8]) -> usize
    ensures exact { result ≡ prefix_len is_in_line text.now }
    ensures within { result ≤ length text.now }
{
    text.iter().take_while(|byte| is_in_line(**byte)).count()
}

fn is_sign(text: &[u8]) -> bool
    ensures { result ≡ is_sign text.now }
{
    match text {
        b"(" | b")" | b"{" | b"}" | b";" | b"," | b"." | b"=" | b"==" | b"!=" | b"<" | b"<=" =>
            true,
        b">" | b">=" | b"+" | b"-" | b"--" | b"*" | b"/" | b"%" | b"!" | b"&&" | b"||" => true,
        _ => false,
    }
}

fn starts_close(text: &[u8]) -> bool
    ensures { result ≡ starts_close text.now }
{
    matches!(text, [b'*', b'/', ..])
}

/// Where the first `*/` ends.
#[tactic(auto, using(crate::proofs::Closing::close_step, crate::proofs::Closing::close_within))]
fn close_end(text: &[u8]) -> Option<usize>
    ensures exact { result ≡ close_end text.now }
    ensures within { IfSome result (λ end. end ≤ length text.now) }
{
    let mut at = 0;
    while at < text.len() {
        if starts_close(&text[at..]) {
            return Some(at + 2);
        }
        at += 1;
    }
    None
}

/// The front of a text that begins with `/*`, of which `text` is what follows.
fn block_front(text: &[u8]) -> Front
    requires { length text.now < 2 ^ 32 }
    ensures { result ≡ block_front text.now }
{
    match close_end(text) {
        Some(end) => Front {
            kind: Piece::Comment,
            len: 2 + end,
        },
        None => Front {
            kind: Piece::OpenComment,
            len: 2 + text.len(),
        },
    }
}

/// The front of a text that begins with `/`, of which `text` is what follows.
fn slash_front(text: &[u8]) -> Front
    requires { length text.now < 2 ^ 32 }
    ensures { result ≡ slash_front text.now }
{
    match text {
        [b'/', rest @ ..] => Front {
            kind: Piece::Comment,
            len: 2 + rest_of_line(rest),
        },
        [b'*', rest @ ..] => block_front(rest),
        _ => Front {
            kind: Piece::Sign,
            len: 1,
        },
    }
}

fn sign_front(text: &[u8]) -> Option<Front>
    ensures { result ≡ sign_front text.now }
{
    if 1 < text.len() && is_sign(&text[..2]) {
        Some(Front {
            kind: Piece::Sign,
            len: 2,
        })
    } else if !text.is_empty() && is_sign(&text[..1]) {
        Some(Front {
            kind: Piece::Sign,
            len: 1,
        })
    } else {
        None
    }
}

/// The longest piece at the start of a text that begins with a letter or a digit, of which `rest` is what follows.
fn word_front(first: u8, rest: &[u8]) -> Front
    requires word { is_word_byte first ≡ true }
    requires small { length rest.now < 2 ^ 32 }
    ensures { Some result ≡ longest_piece (first ∷ rest.now) }
{
    if !is_digit(first) {
        Front {
            kind: Piece::Word,
            len: 1 + word_bytes(rest),
        }
    } else if first == b'0' {
        Front {
            kind: Piece::Number,
            len: 1,
        }
    } else {
        Front {
            kind: Piece::Number,
            len: 1 + digits(rest),
        }
    }
}

/// The longest piece at the start of a text.
pub fn find_front(text: &[u8]) -> Option<Front>
    requires { length text.now < 2 ^ 32 }
    ensures { result ≡ longest_piece text.now }
{
    let (first, rest) = text.split_first()?;
    if is_word_byte(*first) {
        Some(word_front(*first, rest))
    } else if is_blank(*first) {
        Some(Front {
            kind: Piece::Blanks,
            len: 1 + blanks(rest),
        })
    } else if *first == b'/' {
        Some(slash_front(rest))
    } else {
        sign_front(text)
    }
}

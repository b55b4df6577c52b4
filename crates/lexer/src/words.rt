//! Comparison by first letter.

ghost use Rattle.std.specs.Prelude.{◌≡◌, ◌++◌, codes};
ghost use Rattle.lexer.specs.Reserved.{is_reserved};

// Whether the bytes after a first letter make a reserved word with it, for each letter that begins one.
// Only the proof needs a function for each letter: all words in one are too many cases for it.

fn from_a(rest: &[u8]) -> bool
    ensures { result ≡ is_reserved (codes "a" ++ rest.now) }
{
    matches!(rest, b"bstract" | b"ssert" | b"tomic")
}

fn from_b(rest: &[u8]) -> bool
    ensures { result ≡ is_reserved (codes "b" ++ rest.now) }
{
    matches!(rest, b"oolean" | b"reak" | b"yte")
}

fn from_c(rest: &[u8]) -> bool
    ensures { result ≡ is_reserved (codes "c" ++ rest.now) }
{
    matches!(
        rest,
        b"ase" | b"atch" | b"har" | b"lass" | b"onst" | b"ontinue"
    )
}

fn from_d(rest: &[u8]) -> bool
    ensures { result ≡ is_reserved (codes "d" ++ rest.now) }
{
    matches!(rest, b"efault" | b"o" | b"ouble")
}

fn from_e(rest: &[u8]) -> bool
    ensures { result ≡ is_reserved (codes "e" ++ rest.now) }
{
    matches!(rest, b"lse" | b"num" | b"xtends")
}

fn from_f(rest: &[u8]) -> bool
    ensures { result ≡ is_reserved (codes "f" ++ rest.now) }
{
    matches!(rest, b"inal" | b"inally" | b"loat" | b"or" | b"alse")
}

fn from_g(rest: &[u8]) -> bool
    ensures { result ≡ is_reserved (codes "g" ++ rest.now) }
{
    matches!(rest, b"oto" | b"uarded_by")
}

fn from_i(rest: &[u8]) -> bool
    ensures { result ≡ is_reserved (codes "i" ++ rest.now) }
{
    matches!(
        rest,
        b"f" | b"mplements" | b"mport" | b"nstanceof" | b"nt" | b"nterface"
    )
}

fn from_l(rest: &[u8]) -> bool
    ensures { result ≡ is_reserved (codes "l" ++ rest.now) }
{
    matches!(rest, b"ong")
}

fn from_n(rest: &[u8]) -> bool
    ensures { result ≡ is_reserved (codes "n" ++ rest.now) }
{
    matches!(rest, b"ative" | b"ew" | b"ull")
}

fn from_p(rest: &[u8]) -> bool
    ensures { result ≡ is_reserved (codes "p" ++ rest.now) }
{
    matches!(rest, b"ackage" | b"rivate" | b"rotected" | b"ublic")
}

fn from_r(rest: &[u8]) -> bool
    ensures { result ≡ is_reserved (codes "r" ++ rest.now) }
{
    matches!(rest, b"eturn" | b"equires")
}

fn from_s(rest: &[u8]) -> bool
    ensures { result ≡ is_reserved (codes "s" ++ rest.now) }
{
    matches!(
        rest,
        b"hort" | b"tatic" | b"trictfp" | b"uper" | b"witch" | b"ynchronized"
    )
}

fn from_t(rest: &[u8]) -> bool
    ensures { result ≡ is_reserved (codes "t" ++ rest.now) }
{
    matches!(
        rest,
        b"his" | b"hrow" | b"hrows" | b"ransient" | b"ry" | b"rue"
    )
}

fn from_v(rest: &[u8]) -> bool
    ensures { result ≡ is_reserved (codes "v" ++ rest.now) }
{
    matches!(rest, b"oid" | b"olatile")
}

fn from_w(rest: &[u8]) -> bool
    ensures { result ≡ is_reserved (codes "w" ++ rest.now) }
{
    matches!(rest, b"hile" | b"rite_guarded_by")
}

fn from_capital_r(rest: &[u8]) -> bool
    ensures { result ≡ is_reserved (codes "R" ++ rest.now) }
{
    matches!(rest, b"unnable")
}

fn from_capital_s(rest: &[u8]) -> bool
    ensures { result ≡ is_reserved (codes "S" ++ rest.now) }
{
    matches!(rest, b"ystem")
}

fn from_capital_t(rest: &[u8]) -> bool
    ensures { result ≡ is_reserved (codes "T" ++ rest.now) }
{
    matches!(rest, b"hread")
}

/// Whether a word is reserved: its first letter leaves at most six words to compare it with.
pub fn is_reserved(word: &str) -> bool
    ensures { result ≡ is_reserved word.now }
{
    match word.as_bytes() {
        [b'a', rest @ ..] => from_a(rest),
        [b'b', rest @ ..] => from_b(rest),
        [b'c', rest @ ..] => from_c(rest),
        [b'd', rest @ ..] => from_d(rest),
        [b'e', rest @ ..] => from_e(rest),
        [b'f', rest @ ..] => from_f(rest),
        [b'g', rest @ ..] => from_g(rest),
        [b'i', rest @ ..] => from_i(rest),
        [b'l', rest @ ..] => from_l(rest),
        [b'n', rest @ ..] => from_n(rest),
        [b'p', rest @ ..] => from_p(rest),
        [b'r', rest @ ..] => from_r(rest),
        [b's', rest @ ..] => from_s(rest),
        [b't', rest @ ..] => from_t(rest),
        [b'v', rest @ ..] => from_v(rest),
        [b'w', rest @ ..] => from_w(rest),
        [b'R', rest @ ..] => from_capital_r(rest),
        [b'S', rest @ ..] => from_capital_s(rest),
        [b'T', rest @ ..] => from_capital_t(rest),
        _ => false,
    }
}

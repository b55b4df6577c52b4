//! What lines say.
ghost use Rattle.std.specs.Prelude.{◌≡◌, Some, option_map};
ghost use Rattle.logs.specs.Words.{before_space, behind_space};
ghost use Rattle.logs.specs.Said as says;

use crate::words::{cut, is_word};

/// What a thread did.
#[derive(Clone, Copy, Debug)]
pub enum Deed<'a> {
    /// It took a lock.
    Take(&'a [u8]),
    /// It gave a lock back.
    Give(&'a [u8]),
    /// It saw a value in a place.
    Read(&'a [u8], &'a [u8]),
    /// It wrote a value to a place.
    Write(&'a [u8], &'a [u8]),
    /// It saw the first value in a place, and left the second there.
    Change(&'a [u8], &'a [u8], &'a [u8]),
    /// It started a thread.
    Start(&'a [u8]),
    /// It saw that a thread has ended.
    Join(&'a [u8]),
    /// It ended itself.
    Stop,
    /// A block begins that means to be atomic.
    Begin(&'a [u8]),
    /// The innermost block ends.
    End,
}

/// A thread and what it did.
#[derive(Clone, Copy, Debug)]
pub struct Said<'a> {
    pub thread: &'a [u8],
    pub deed: Deed<'a>,
}

/// The deed of this word alone.
fn bare_deed<'a>(deed: &[u8]) -> Option<Deed<'a>>
    ensures { option_map says.deed_data result ≡ says.bare_deed deed.now }
{
    if deed == b"stop".as_slice() {
        Some(Deed::Stop)
    } else if deed == b"end".as_slice() {
        Some(Deed::End)
    } else {
        None
    }
}

/// The deed of this word with one more.
fn deed_with_one<'a>(deed: &[u8], first: &'a [u8]) -> Option<Deed<'a>>
    ensures { option_map says.deed_data result ≡ says.deed_with_one deed.now first.now }
{
    if deed == b"take".as_slice() {
        Some(Deed::Take(first))
    } else if deed == b"give".as_slice() {
        Some(Deed::Give(first))
    } else if deed == b"start".as_slice() {
        Some(Deed::Start(first))
    } else if deed == b"join".as_slice() {
        Some(Deed::Join(first))
    } else if deed == b"begin".as_slice() {
        Some(Deed::Begin(first))
    } else {
        None
    }
}

/// The deed of this word with two more.
fn deed_with_two<'a>(deed: &[u8], first: &'a [u8], second: &'a [u8]) -> Option<Deed<'a>>
    ensures { option_map says.deed_data result ≡ says.deed_with_two deed.now first.now second.now }
{
    if deed == b"read".as_slice() {
        Some(Deed::Read(first, second))
    } else if deed == b"write".as_slice() {
        Some(Deed::Write(first, second))
    } else {
        None
    }
}

/// The deed whose third word behind it stands in front of this.
fn third_read<'a>(
    deed: &[u8],
    first: &'a [u8],
    second: &'a [u8],
    rest: &'a [u8],
) -> Option<Deed<'a>>
    ensures { option_map says.deed_data result ≡ says.second_read deed.now first.now second.now (Some rest.now) }
{
    let (third, rest) = cut(rest);
    if is_word(third) && rest.is_none() && deed == b"change".as_slice() {
        Some(Deed::Change(first, second, third))
    } else {
        None
    }
}

/// The deed whose second word behind it stands in front of this.
fn second_read<'a>(deed: &[u8], first: &'a [u8], rest: &'a [u8]) -> Option<Deed<'a>>
    ensures { option_map says.deed_data result ≡ says.first_read deed.now first.now (Some rest.now) }
{
    let (second, rest) = cut(rest);
    if !is_word(second) {
        return None;
    }
    match rest {
        Some(rest) => third_read(deed, first, second, rest),
        None => deed_with_two(deed, first, second),
    }
}

/// The deed whose first word behind it stands in front of this.
fn first_read<'a>(deed: &[u8], rest: &'a [u8]) -> Option<Deed<'a>>
    ensures { option_map says.deed_data result ≡ says.deed_read deed.now (Some rest.now) }
{
    let (first, rest) = cut(rest);
    if !is_word(first) {
        return None;
    }
    match rest {
        Some(rest) => second_read(deed, first, rest),
        None => deed_with_one(deed, first),
    }
}

/// The deed that stands here.
fn deed_read(bytes: &[u8]) -> Option<Deed<'_>>
    ensures { option_map says.deed_data result ≡ says.deed_read (before_space bytes.now) (behind_space bytes.now) }
{
    let (deed, rest) = cut(bytes);
    match rest {
        Some(rest) => first_read(deed, rest),
        None => bare_deed(deed),
    }
}

/// What a row of bytes says, where it is a line.
pub fn read_line(row: &[u8]) -> Option<Said<'_>>
    ensures { option_map says.said_data result ≡ says.said_of row.now }
{
    let (thread, rest) = cut(row);
    let rest = rest?;
    if !is_word(thread) {
        return None;
    }
    let deed = deed_read(rest)?;
    Some(Said { thread, deed })
}

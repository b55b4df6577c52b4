//! Lines and columns of many offsets of one text.

ghost use Rattle.std.specs.Prelude.{◌≡◌, ◌+◌, ◌-◌, ◌<◌, ◌≤◌, count_by, get_or, length, take, true, IfOk, IfSome};
ghost use Rattle.lexer.specs.Limits.{longest_source};
ghost use Rattle.lexer.specs.Places.{column_of, is_line_feed, line_of};
ghost use Rattle.places.specs.Feeds.{feeds_from, since};

use lexer::Place;
use std::alloc::{AllocError as NoMemory, Global};
use std::cell::Cell;
use std::marker::Model;

/// A text with the offsets of its line feeds, so that the line of an offset is found without a walk through the text, and how many line
/// feeds stood before the offset that was asked for last, since the next one is mostly near it. It is seen as the text.
#[derive(Drop)]
pub struct LineIndex<'a> {
    text: &'a str,
    feeds: Vec<u32>,
    last: Cell<usize>,
}

impl<'a> Model for LineIndex<'a> {
    ghost use Rattle.std.specs.Prelude.{ℕ, List};
    ghost use Rattle.places.specs.Feeds.{IsIndexed};

    ghost Value = { List ℕ };

    ghost view = { λ s. s.text.now };

    ghost invariant = { λ s. IsIndexed s.text.now s.feeds.items };
}

/// The offsets of the line feeds of a text.
fn line_feeds(alloc: Global, text: &str) -> Result<Vec<u32>, NoMemory>
    requires { length text.now ≤ longest_source }
    ensures { IfOk result (λ feeds. feeds.items ≡ feeds_from 0 text.now) }
{
    let mut feeds = Vec::new(alloc);
    for (at, byte) in text.as_bytes().iter().enumerate() {
        if *byte == b'\n' {
            feeds.push(at as u32)?;
        }
    }
    Ok(feeds)
}

/// Whether the last of the first `count` of these offsets is less than this one; true where `count` is 0.
fn stands_behind(feeds: &[u32], count: usize, at: u32) -> bool
    ensures { result ≡ true → 0 < count → get_or feeds.now (count - 1) 0 < at }
{
    match count {
        0 => true,
        _ => match feeds.get(count - 1) {
            Some(feed) => *feed < at,
            None => false,
        },
    }
}

/// Whether there are `count` of these offsets, and the one behind them, if there is one, isn't less than this one.
fn stands_before(feeds: &[u32], count: usize, at: u32) -> bool
    ensures within { result ≡ true → count ≤ length feeds.now }
    ensures next { result ≡ true → count < length feeds.now → at ≤ get_or feeds.now count 0 }
{
    match feeds.get(count) {
        Some(feed) => at <= *feed,
        None => count == feeds.len(),
    }
}

impl<'a> LineIndex<'a> {
    /// The index of a text.
    pub fn new(alloc: Global, text: &'a str) -> Result<LineIndex<'a>, NoMemory>
        requires { length text.now ≤ longest_source }
        ensures { IfOk result (λ index. index ≡ text.now) }
    {
        let feeds = line_feeds(alloc, text)?;
        Ok(LineIndex {
            text,
            feeds,
            last: Cell::new(0),
        })
    }

    /// Whether it is seen at once that so many line feeds stand before an offset.
    fn fits(&self, count: usize, at: u32) -> bool
        ensures { result ≡ true → count ≡ count_by is_line_feed (take at self.now) }
    {
        let feeds = self.feeds.as_slice();
        stands_behind(feeds, count, at) && stands_before(feeds, count, at)
    }

    /// How many line feeds stand before an offset, where it is in the line that was asked for last or next to it.
    fn feeds_near(&self, at: u32) -> Option<usize>
        ensures { IfSome result (λ count. count ≡ count_by is_line_feed (take at self.now)) }
    {
        let last = self.last.get();
        if self.fits(last, at) {
            return Some(last);
        }
        let next = last.saturating_add(1);
        if self.fits(next, at) {
            return Some(next);
        }
        let before = last.saturating_sub(1);
        if self.fits(before, at) {
            return Some(before);
        }
        None
    }

    /// How many line feeds stand before an offset, by a search.
    fn feeds_found(&self, at: u32) -> usize
        ensures { result ≡ count_by is_line_feed (take at self.now) }
    {
        match self.feeds.as_slice().binary_search(&at) {
            Ok(count) => count,
            Err(count) => count,
        }
    }

    /// How many line feeds stand before an offset.
    fn feeds_before(&self, at: u32) -> usize
        ensures { result ≡ count_by is_line_feed (take at self.now) }
    {
        let count = match self.feeds_near(at) {
            Some(count) => count,
            None => self.feeds_found(at),
        };
        self.last.set(count);
        count
    }

    /// Where the line of an offset begins, before which so many line feeds stand.
    fn line_begin(&self, at: u32, before: usize) -> u32
        requires within { at ≤ length self.now }
        requires counted { before ≡ count_by is_line_feed (take at self.now) }
        ensures { result + since self.now at ≡ at }
    {
        match before {
            0 => 0,
            count => self.feeds[count - 1] + 1,
        }
    }

    /// The place of the byte at an offset; one past the text's end stands at the end.
    pub fn place(&self, at: u32) -> Place
        ensures line { result.line ≡ line_of self.now at }
        ensures column { result.column ≡ column_of self.now at }
    {
        let at = at.min(self.text.len() as u32);
        let before = self.feeds_before(at);
        let begin = self.line_begin(at, before);
        Place {
            line: before as u32 + 1,
            column: at - begin + 1,
        }
    }
}

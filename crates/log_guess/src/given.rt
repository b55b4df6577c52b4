//! Guards that are given in a text.
ghost use Rattle.std.specs.Prelude.{◌≡◌, ◌+◌, ℕ, List, [], ◌∷◌, Ok, Some, IfOk, MatchResult, OnOk, option_map};
ghost use Rattle.logs.specs.Views.{guard_data, guards_data};
ghost use Rattle.logs.specs.Words.{before_space, behind_space};
ghost use Rattle.log_guess.specs.Given as gives;
ghost use Rattle.log_guess.specs.Places.{named_data, given_data, guards_from, IsTextEnd};

use logs::{Guard, Guards, cut, is_word};
use std::alloc::{AllocError as NoMemory, Global};

/// Why a text doesn't give guards: this line of it is no line of guards, or there was no memory.
#[derive(Clone, Copy, PartialEq, Eq)]
pub enum GivenEnd {
    NoLine(u64),
    NoMemory,
}

/// What is said to guard a place: this lock, this thread alone, or nothing.
#[derive(Clone, Copy)]
enum Named<'a> {
    Lock(&'a [u8]),
    Thread(&'a [u8]),
    Free,
}

/// A place, and what is said to guard it.
#[derive(Clone, Copy)]
struct Given<'a> {
    place: &'a [u8],
    named: Named<'a>,
}

/// A guard of this kind that has a name.
fn guard_named<'a>(kind: &[u8], name: &'a [u8]) -> Option<Named<'a>>
    ensures { option_map named_data result ≡ gives.guard_named kind.now name.now }
{
    if kind == b"lock".as_slice() {
        Some(Named::Lock(name))
    } else if kind == b"thread".as_slice() {
        Some(Named::Thread(name))
    } else {
        None
    }
}

/// The guard of this kind that has no name.
fn guard_alone<'a>(kind: &[u8]) -> Option<Named<'a>>
    ensures { option_map named_data result ≡ gives.guard_read kind.now None }
{
    if kind == b"free".as_slice() {
        Some(Named::Free)
    } else {
        None
    }
}

/// The guard that stands here.
fn guard_read(bytes: &[u8]) -> Option<Named<'_>>
    ensures { option_map named_data result ≡ gives.guard_read (before_space bytes.now) (behind_space bytes.now) }
{
    let (kind, name) = cut(bytes);
    match name {
        Some(name) => {
            if is_word(name) {
                guard_named(kind, name)
            } else {
                None
            }
        }
        None => guard_alone(kind),
    }
}

/// What a row of bytes gives, where it is a line of guards.
fn row_read(row: &[u8]) -> Option<Given<'_>>
    ensures { option_map given_data result ≡ gives.given_of row.now }
{
    let (place, rest) = cut(row);
    let rest = rest?;
    if !is_word(place) {
        return None;
    }
    let named = guard_read(rest)?;
    Some(Given { place, named })
}

/// A guard of what is said.
fn guard_of(alloc: Global, named: Named<'_>) -> Result<Guard, NoMemory>
    ensures { IfOk result (λ g. guard_data (Some g) ≡ named_data named.entry) }
{
    match named {
        Named::Lock(lock) => {
            let lock = Vec::from_slice(alloc, lock)?;
            Ok(Guard::ByLock(lock))
        }
        Named::Thread(user) => {
            let user = Vec::from_slice(alloc, user)?;
            Ok(Guard::ByThread(user))
        }
        Named::Free => Ok(Guard::Free),
    }
}

/// Notes what a row gives.
fn note(alloc: Global, guards: &mut Guards, given: &Given<'_>) -> Result<(), NoMemory>
    ensures { OnOk result ((p : ℕ) → guards_data guards.new p ≡ gives.with_guard (given_data given.now) (guards_data guards.old) p) }
{
    let guard = guard_of(alloc, given.named)?;
    guards.places.put(alloc, given.place, guard)
}

/// The guards that the lines so far give, the bytes behind the last line's end, and the number of their line.
#[derive(Drop)]
struct Giving {
    guards: Guards,
    row: Vec<u8>,
    line: u64,
}

impl Giving {
    /// At the front of a text.
    fn new(alloc: Global) -> Giving
        ensures { (text : List ℕ) → guards_from result text ≡ gives.guards_of text }
    {
        Giving {
            guards: Guards::new(alloc),
            row: Vec::new(alloc),
            line: 1,
        }
    }

    /// Goes on to the next line.
    fn next_line(&mut self) -> Result<(), NoMemory>
        ensures guards { self.new.guards ≡ self.old.guards }
        ensures row { OnOk result (self.new.row.items ≡ []) }
        ensures next { OnOk result (self.new.line ≡ self.old.line + 1) }
    {
        self.row.clear();
        let Some(line) = self.line.checked_add(1) else {
            return Err(NoMemory);
        };
        self.line = line;
        Ok(())
    }

    /// The end of a line.
    fn end_line(&mut self, alloc: Global) -> Result<(), GivenEnd>
        ensures { (rest : List ℕ) → MatchResult result (λ _. guards_from self.old (10 ∷ rest) ≡ guards_from self.new rest) (IsTextEnd (guards_from self.old (10 ∷ rest))) }
    {
        let Some(given) = row_read(self.row.as_slice()) else {
            return Err(GivenEnd::NoLine(self.line));
        };
        match note(alloc, &mut self.guards, &given) {
            Ok(()) => {}
            Err(NoMemory) => return Err(GivenEnd::NoMemory),
        }
        match self.next_line() {
            Ok(()) => Ok(()),
            Err(NoMemory) => Err(GivenEnd::NoMemory),
        }
    }

    /// One byte more.
    fn byte(&mut self, alloc: Global, byte: u8) -> Result<(), GivenEnd>
        ensures { (rest : List ℕ) → MatchResult result (λ _. guards_from self.old (byte ∷ rest) ≡ guards_from self.new rest) (IsTextEnd (guards_from self.old (byte ∷ rest))) }
    {
        if byte == b'\n' {
            return self.end_line(alloc);
        }
        match self.row.push(byte) {
            Ok(()) => Ok(()),
            Err(_) => Err(GivenEnd::NoMemory),
        }
    }

    /// Goes through the bytes that are left.
    fn feed(&mut self, alloc: Global, bytes: &[u8]) -> Result<(), GivenEnd>
        ensures { MatchResult result (λ _. guards_from self.old bytes.now ≡ guards_from self.new []) (IsTextEnd (guards_from self.old bytes.now)) }
    {
        for byte in bytes {
            match self.byte(alloc, *byte) {
                Ok(()) => {}
                Err(end) => return Err(end),
            }
        }
        Ok(())
    }

    /// The guards that are given at the end of a text.
    fn guards(self) -> Result<Guards, GivenEnd>
        ensures { MatchResult result (λ g. guards_from self [] ≡ Ok (guards_data g)) (IsTextEnd (guards_from self [])) }
    {
        let Giving { guards, row, line } = self;
        if row.is_empty() {
            Ok(guards)
        } else {
            Err(GivenEnd::NoLine(line))
        }
    }
}

/// The guards that a text gives.
pub fn read_guards(alloc: Global, text: &[u8]) -> Result<Guards, GivenEnd>
    ensures { MatchResult result (λ g. gives.guards_of text.now ≡ Ok (guards_data g)) (IsTextEnd (gives.guards_of text.now)) }
{
    let mut giving = Giving::new(alloc);
    match giving.feed(alloc, text) {
        Ok(()) => giving.guards(),
        Err(end) => Err(end),
    }
}

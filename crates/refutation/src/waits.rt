//! Which methods wait to be asked.
ghost use Rattle.std.specs.Prelude.{◌≡◌, ◌<◌, ◌≤◌, ◌∷◌, [], ℕ, length, Some, IfOk, true, false, nat_lt, slice_get};
ghost use Rattle.refutation.specs.Waiting.{AreWoken, IsAsleep};

use crate::told::OverTables;
use std::alloc::{AllocError as NoMemory, Global};
use std::marker::Model;

/// Which methods wait to be asked. Those that do stand from `first` on and before `end`, and a pass looks at these places alone.
#[derive(Drop)]
pub(crate) struct Waits {
    flags: Vec<bool>,
    first: usize,
    end: usize,
}

impl Model for Waits {
    ghost use Rattle.std.specs.Prelude.{List, Bool};
    ghost use Rattle.refutation.specs.Waiting.{WaitWithin};

    ghost Value = { List Bool };

    ghost view = { λ w. w.flags.items };

    ghost invariant = { λ w. WaitWithin w.flags.items w.first w.end };
}

/// Which methods wait to be asked, and whose bodies do. Of a method that waits while its body doesn't, what the body comes to is said. And
/// what is known of the methods that override others.
#[derive(Drop)]
pub(crate) struct Waiting {
    pub(crate) methods: Waits,
    pub(crate) bodies: Waits,
    pub(crate) known: OverTables,
}

/// The end of the places before this one, without those at the end that don't wait.
fn end_of(flags: &[bool], from: usize) -> usize
    requires { from ≤ length flags.now }
    ensures within { result ≤ from }
    ensures asleep { (m : ℕ) → result ≤ m → m < from → slice_get flags.now m ≡ Some false }
{
    let mut end = from;
    while end > 0 && !flags[end - 1] {
        end -= 1;
    }
    end
}

impl Waits {
    /// So many methods that all wait.
    pub(crate) fn all(alloc: Global, count: usize) -> Result<Waits, NoMemory>
        ensures size { IfOk result (λ waits. length waits ≡ count) }
        ensures wait { IfOk result (λ waits. (m : ℕ) → slice_get waits m ≡ Some false → ⊥) }
    {
        let mut flags = Vec::with_capacity(alloc, count)?;
        for _ in 0..count {
            flags.push(true)?;
        }
        Ok(Waits {
            flags,
            first: 0,
            end: count,
        })
    }

    /// The first method from a place on that waits, or the number of methods where none does.
    pub(crate) fn next(&self, from: usize) -> usize
        requires { from ≤ length self.now }
        ensures within { result ≤ length self.now }
        ensures after { from ≤ result }
        ensures asleep { (m : ℕ) → from ≤ m → m < result → slice_get self.now m ≡ Some false }
    {
        let mut at = from.max(self.first);
        while at < self.end {
            if self.flags[at] {
                return at;
            }
            at += 1;
        }
        self.flags.len()
    }

    /// Whether a method, which is there, waits.
    pub(crate) fn has(&self, method: usize) -> bool
        requires { method < length self.now }
        ensures { slice_get self.now method ≡ Some result }
    {
        self.flags[method]
    }

    /// Whether a method is there.
    pub(crate) fn has_place(&self, method: usize) -> bool
        ensures { result ≡ nat_lt method (length self.now) }
    {
        method < self.flags.len()
    }

    /// Whether a method is there and doesn't wait.
    pub(crate) fn is_asleep(&self, method: usize) -> bool
        ensures asleep { slice_get self.now method ≡ Some false → result ≡ true }
        ensures told { result ≡ true → slice_get self.now method ≡ Some false }
    {
        match self.flags.get(method) {
            Some(waits) => !*waits,
            None => false,
        }
    }

    /// Passes over the methods at both ends that don't wait.
    pub(crate) fn narrow(&mut self)
        ensures { self.new ≡ self.old }
    {
        self.first = self.next(0);
        self.end = end_of(self.flags.as_slice(), self.end);
    }

    /// Lets a method wait, if it is there.
    pub(crate) fn wake(&mut self, method: usize)
        ensures size { length self.new ≡ length self.old }
        ensures woken { AreWoken self.old self.new (method ∷ []) }
    {
        if method < self.flags.len() {
            self.flags[method] = true;
            self.first = self.first.min(method);
            self.end = self.end.max(method + 1);
        }
    }

    /// Lets a method, which is there, wait no longer.
    pub(crate) fn sleep(&mut self, method: usize)
        requires { method < length self.old }
        ensures size { length self.new ≡ length self.old }
        ensures asleep { IsAsleep self.old self.new method }
    {
        self.flags[method] = false;
    }
}

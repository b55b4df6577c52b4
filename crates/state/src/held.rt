//! The held locks by the addresses of their objects.
ghost use Rattle.std.specs.Prelude.{count_by, ◌≡◌, ◌==◌, ◌<◌, ◌-◌, Some, None, IsSome, MatchOption, IfOk, OnOk, OnErr, slice_get};
ghost use Rattle.std.specs.FinMap as map;
ghost use Rattle.state.specs.Memory.{with_lock};
ghost use Rattle.state.specs.Stored.{found_lock, MayTake, taken_by, stored_given_back};

use crate::grid::Grid;
use crate::row::Copied;
use crate::value::Address;
use std::alloc::{AllocError as NoMemory, Global};
use std::marker::Model;

/// A held lock: the thread that holds it, and how often.
#[derive(Clone, Copy, Drop)]
pub(crate) struct Held {
    holder: u32,
    count: u32,
}

impl Model for Held {
    ghost use Rattle.state.specs.Memory.{Hold};
    ghost use Rattle.state.specs.Codes.{hold_code};

    ghost Value = { Hold };

    ghost coded = { hold_code };

    ghost view = { λ h. record { holder = h.holder; count = h.count } };

    ghost inverse = { λ h. record { holder = h.holder; count = h.count } };
}

impl Copied for Held {
    fn copied(&self, _alloc: Global) -> Result<Held, NoMemory> {
        Ok(*self)
    }
}

/// The held locks by the addresses of their objects. A contract sees the map of them.
#[derive(Drop)]
pub struct Locks {
    held: Grid<Held>,
}

impl Model for Locks {
    ghost use Rattle.std.specs.FinMap as map;
    ghost use Rattle.state.specs.Memory.{address_cmp, Hold};
    ghost use Rattle.state.specs.Slots.{address_code};
    ghost use Rattle.state.specs.Codes.{hold_code};

    ghost Value = { map.FinMap address_cmp Hold };

    ghost coded = { map.code address_code hold_code };

    ghost view = { λ l. l.held };
}

impl Locks {
    /// No held lock; takes no memory.
    pub fn new(alloc: Global) -> Locks
        ensures { result ≡ map.empty }
    {
        Locks {
            held: Grid::new(alloc),
        }
    }

    /// The number of held locks.
    pub fn len(&self) -> usize
        ensures { result ≡ map.len self.now }
    {
        self.held.len()
    }

    /// How many of the held locks are those of objects that this thread made.
    pub fn held_of(&self, thread: u32) -> usize
        ensures { result ≡ count_by (λ a. a.thread == thread) (map.keys self.now) }
    {
        self.held.filled(thread)
    }

    /// The held lock at a place, in ascending order of addresses: the address, the holder and the count.
    pub fn at(&self, place: usize) -> Option<(Address, u32, u32)>
        ensures { MatchOption result (slice_get (map.entries self.now) place ≡ None)
            (λ e. slice_get (map.entries self.now) place ≡ Some (e.0, record { holder = e.1; count = e.2 })) }
    {
        match self.held.nth(place) {
            Some((address, held)) => Some((address, held.holder, held.count)),
            None => None,
        }
    }

    /// The lock of an address, where it is held: the holder and the count.
    pub fn find(&self, a: Address) -> Option<(u32, u32)>
        ensures { found_lock result ≡ map.get self.now a }
    {
        match self.held.get(a) {
            Some(held) => Some((held.holder, held.count)),
            None => None,
        }
    }

    /// A thread takes a lock that no other thread holds, once more.
    pub fn take(&mut self, alloc: Global, a: Address, thread: u32) -> Result<(), NoMemory>
        requires { MayTake thread (map.get self.old a) }
        ensures ok { OnOk result (self.new ≡ map.insert self.old a (taken_by thread (map.get self.old a))) }
        ensures err { OnErr result (self.new ≡ self.old) }
    {
        match self.find(a) {
            Some((holder, count)) => {
                self.held.replace(
                    a,
                    Held {
                        holder,
                        count: count + 1,
                    },
                );
                Ok(())
            }
            None => self.held.put(
                alloc,
                a,
                Held {
                    holder: thread,
                    count: 1,
                },
            ),
        }
    }

    /// Gives a held lock back once, and frees it at 0; takes no memory.
    pub fn give(&mut self, a: Address)
        requires { IsSome (map.get self.old a) }
        ensures { self.new ≡ with_lock a (stored_given_back (map.get self.old a)) self.old }
    {
        match self.find(a) {
            Some((holder, count)) if count > 1 => self.held.replace(
                a,
                Held {
                    holder,
                    count: count - 1,
                },
            ),
            _ => self.held.remove(a),
        }
    }

    /// Equal locks.
    pub fn copy(&self, alloc: Global) -> Result<Locks, NoMemory>
        ensures { IfOk result (λ l. l ≡ self.now) }
    {
        let held = self.held.copy(alloc)?;
        Ok(Locks { held })
    }
}

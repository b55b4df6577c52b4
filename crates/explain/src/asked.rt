//! Which methods are asked for a ground next: those that wait for one that has got its rank since they were asked. No ground rests on it, since
//! all methods are asked once more in the end.

use algebra::Basic;
use paths::MethodId;
use std::alloc::{AllocError as NoMemory, Global};
use std::mem::replace;

/// The rank of a method that has none yet.
pub(crate) const OPEN: u64 = u64::MAX;

/// Methods to be asked, by their places, each once; and the room of those that were taken out before.
#[derive(Drop)]
struct Due {
    is_due: Vec<bool>,
    places: Vec<usize>,
    room: Vec<usize>,
}

impl Due {
    /// None of so many methods.
    fn new(alloc: Global, count: usize) -> Result<Due, NoMemory> {
        Ok(Due {
            is_due: vec![in alloc; false; count]?,
            places: Vec::new(alloc),
            room: Vec::new(alloc),
        })
    }

    /// Adds a method, if it isn't one of these already.
    fn add(&mut self, place: usize) -> Result<(), NoMemory> {
        if place >= self.is_due.len() || self.is_due[place] {
            return Ok(());
        }
        self.is_due[place] = true;
        self.places.push(place)?;
        Ok(())
    }

    /// Takes all of them out.
    fn take(&mut self, alloc: Global) -> Vec<usize> {
        let room = replace(&mut self.room, Vec::new(alloc));
        let places = replace(&mut self.places, room);
        for place in places.as_slice() {
            unmark(&mut self.is_due, *place);
        }
        places
    }

    /// Gives back those that were taken out, for their room.
    fn give_back(&mut self, asked: Vec<usize>) {
        let mut room = asked;
        room.clear();
        self.room = room;
    }
}

/// Marks a method as not to be asked.
fn unmark(is_due: &mut Vec<bool>, place: usize) {
    if place < is_due.len() {
        is_due[place] = false;
    }
}

/// A method that waits, and the place of the next one that waits for the same method.
#[derive(Clone, Copy)]
struct Waiter {
    place: usize,
    next: Option<usize>,
}

/// The methods that wait for each method, from the one that was added last on, and those that are to be asked.
#[derive(Drop)]
struct Queue {
    lasts: Vec<Option<usize>>,
    waiters: Vec<Waiter>,
    due: Due,
}

impl Queue {
    /// None of so many methods waits, and none is to be asked.
    fn new(alloc: Global, count: usize) -> Result<Queue, NoMemory> {
        Ok(Queue {
            lasts: vec![in alloc; None; count]?,
            waiters: Vec::new(alloc),
            due: Due::new(alloc, count)?,
        })
    }

    /// Adds a method that waits for another.
    fn add(&mut self, place: usize, awaited: MethodId) -> Result<(), NoMemory> {
        let row = awaited.0 as usize;
        if row >= self.lasts.len() {
            return Ok(());
        }
        let next = replace(&mut self.lasts[row], Some(self.waiters.len()));
        self.waiters.push(Waiter { place, next })?;
        Ok(())
    }

    /// The methods that wait for this one are to be asked.
    fn wake(&mut self, place: usize) -> Result<(), NoMemory> {
        let mut at = self.lasts.get(place).copied().unwrap_or(None);
        for _ in 0..self.waiters.len() {
            let Some(waiter) = at.and_then(|k| self.waiters.get(k).copied()) else {
                return Ok(());
            };
            self.due.add(waiter.place)?;
            at = waiter.next;
        }
        Ok(())
    }

    /// Whether none is to be asked.
    fn is_done(&self) -> bool {
        self.due.places.is_empty()
    }
}

/// Who waits to be asked as it is, whether it is an error by what is known, and whether it is compound by that.
#[derive(Drop)]
pub(crate) struct Queues {
    led: Queue,
    errors: Queue,
    compounds: Queue,
}

impl Queues {
    /// None of so many methods waits, and none is to be asked.
    pub(crate) fn new(alloc: Global, count: usize) -> Result<Queues, NoMemory> {
        Ok(Queues {
            led: Queue::new(alloc, count)?,
            errors: Queue::new(alloc, count)?,
            compounds: Queue::new(alloc, count)?,
        })
    }

    /// Adds a method whose explanation as it is leads to another.
    pub(crate) fn add_led(&mut self, place: usize, lead: MethodId) -> Result<(), NoMemory> {
        self.led.add(place, lead)
    }

    /// Adds a method that is more than `atomic` by another, which is an error or compound.
    pub(crate) fn add_known(
        &mut self,
        place: usize,
        awaited: MethodId,
        is_error: bool,
    ) -> Result<(), NoMemory> {
        if is_error {
            self.errors.add(place, awaited)?;
        }
        self.compounds.add(place, awaited)
    }

    /// A method is to be asked whether it is compound by what is known, and where it may be, whether it is an error by that.
    pub(crate) fn ask_known(&mut self, place: usize, may_be_error: bool) -> Result<(), NoMemory> {
        if may_be_error {
            self.errors.due.add(place)?;
        }
        self.compounds.due.add(place)
    }

    /// The methods that wait for this one are to be asked.
    pub(crate) fn wake(&mut self, place: usize) -> Result<(), NoMemory> {
        self.led.wake(place)?;
        self.errors.wake(place)?;
        self.compounds.wake(place)
    }

    /// Whether none is to be asked as it is.
    pub(crate) fn is_led_done(&self) -> bool {
        self.led.is_done()
    }

    /// Whether none is to be asked.
    pub(crate) fn is_done(&self) -> bool {
        self.led.is_done() && self.errors.is_done() && self.compounds.is_done()
    }

    /// Takes out those that are asked as they are.
    pub(crate) fn take_led(&mut self, alloc: Global) -> Vec<usize> {
        self.led.due.take(alloc)
    }

    /// Gives back those that were asked as they are.
    pub(crate) fn give_back_led(&mut self, asked: Vec<usize>) {
        self.led.due.give_back(asked);
    }

    /// Takes out those that are asked whether they are more than a level.
    pub(crate) fn take_known(&mut self, alloc: Global, level: Basic) -> Vec<usize> {
        if level == Basic::Atomic {
            self.compounds.due.take(alloc)
        } else {
            self.errors.due.take(alloc)
        }
    }
}

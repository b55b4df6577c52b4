//! Where nodes stand that may be the same. This is a hint: whoever follows it compares.

use machine::Machine;
use state::{Address, Heap, ThreadCell, Value};
use std::alloc::{AllocError as NoMemory, Global};

/// How many keys there are.
const KEYS: u32 = 8192;

/// For each key the place of the last node that has it, and for each node the place of the one before it with the same key.
/// No node stands at the place that tells that there is none.
#[derive(Drop)]
pub(crate) struct Places {
    last: Vec<usize>,
    before: Vec<usize>,
}

/// The place that tells that there is none.
const NOWHERE: usize = usize::MAX;

impl Places {
    /// No places.
    pub(crate) fn new(alloc: Global) -> Result<Places, NoMemory> {
        let mut last = Vec::new(alloc);
        last.resize(KEYS as usize, NOWHERE)?;
        Ok(Places {
            last,
            before: Vec::new(alloc),
        })
    }

    /// The place of the last node with this key.
    pub(crate) fn last(&self, key: u32) -> usize {
        match self.last.get(key as usize) {
            Some(place) => *place,
            None => NOWHERE,
        }
    }

    /// The place of the node before the one at this place that has the same key.
    pub(crate) fn before(&self, place: usize) -> usize {
        match self.before.get(place) {
            Some(before) => *before,
            None => NOWHERE,
        }
    }

    /// The next node has this key.
    pub(crate) fn add(&mut self, key: u32) -> Result<(), NoMemory> {
        let place = self.before.len();
        let before = self.last(key);
        self.before.push(before)?;
        if let Some(last) = self.last.get_mut(key as usize) {
            *last = place;
        }
        Ok(())
    }
}

/// A key with one number more.
fn mixed(key: u32, number: u32) -> u32 {
    (key ^ number).wrapping_mul(16777619).rotate_left(13)
}

/// A key with an address more.
fn with_address(key: u32, address: Address) -> u32 {
    mixed(mixed(key, address.thread), address.count)
}

/// A key with some values more.
fn with_values(key: u32, values: &[Value]) -> u32 {
    let mut key = key;
    for value in values {
        key = match *value {
            Value::Int(number) => mixed(key, number.unsigned_abs()),
            Value::Truth(is) => mixed(key, is as u32),
            Value::Null => mixed(key, 2),
            Value::Ref(address) => with_address(key, address),
        };
    }
    key
}

/// A key with the objects more.
fn with_heap(key: u32, heap: &Heap) -> u32 {
    let mut key = key;
    for place in 0..heap.len() {
        if let Some((_, _, values)) = heap.at(place) {
            key = with_values(key, values);
        }
    }
    key
}

/// A key with the numbers more.
fn with_numbers(key: u32, numbers: &[i32]) -> u32 {
    let mut key = key;
    for number in numbers {
        key = mixed(key, number.unsigned_abs());
    }
    key
}

/// A key with a thread more: where it stands, and what its innermost frame has.
fn with_thread(key: u32, thread: &ThreadCell) -> u32 {
    let key = match thread.place() {
        Some(place) => mixed(key, place),
        None => mixed(key, KEYS),
    };
    with_values(with_values(key, thread.slots()), thread.operands())
}

/// The key of a machine.
pub(crate) fn key_of(machine: &Machine<'_>) -> u32 {
    let mut key = with_numbers(with_heap(0, machine.heap()), machine.output());
    for thread in machine.threads() {
        key = with_thread(key, thread);
    }
    key % KEYS
}

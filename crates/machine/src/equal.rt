//! Equal states: tests for them, and copies.
ghost use Rattle.std.specs.Prelude.{◌≡◌, true, IfOk, map, slice_get};
ghost use Rattle.std.specs.FinMap as finite;
ghost use Rattle.state.specs.Frames.{code_thread};

use paths::ClassId;
use state::{Address, Heap, Locks, ThreadCell, Value, same_address, same_values};
use std::alloc::{AllocError as NoMemory, Global};

/// Whether these are equal classes.
fn same_class(one: ClassId, other: ClassId) -> bool
    ensures same { result ≡ true → one ≡ other }
    ensures told { one ≡ other → result ≡ true }
{
    one == other
}

/// Whether these are equal objects at equal addresses: each an address, a class and the values of the fields.
fn same_cell(some: (Address, ClassId, &[Value]), others: (Address, ClassId, &[Value])) -> bool
    ensures address { result ≡ true → some.entry.0 ≡ others.entry.0 }
    ensures class { result ≡ true → some.entry.1 ≡ others.entry.1 }
    ensures values { result ≡ true → some.entry.2.now ≡ others.entry.2.now }
    ensures told { some.entry.0 ≡ others.entry.0 → some.entry.1 ≡ others.entry.1 → some.entry.2.now ≡ others.entry.2.now → result ≡ true }
{
    if !same_address(some.0, others.0) {
        return false;
    }
    if !same_class(some.1, others.1) {
        return false;
    }
    same_values(some.2, others.2)
}

/// Whether two heaps have equal objects at this place, in ascending order of addresses, or both have none.
fn same_object(one: &Heap, other: &Heap, place: usize) -> bool
    ensures same { result ≡ true → slice_get (finite.entries one.now) place ≡ slice_get (finite.entries other.now) place }
    ensures told { slice_get (finite.entries one.now) place ≡ slice_get (finite.entries other.now) place → result ≡ true }
{
    let Some(some) = one.at(place) else {
        return other.at(place).is_none();
    };
    let Some(others) = other.at(place) else {
        return false;
    };
    same_cell(some, others)
}

/// Whether two heaps have equal objects at the same addresses.
pub fn same_heap(one: &Heap, other: &Heap) -> bool
    ensures same { result ≡ true → one.now ≡ other.now }
    ensures told { one.now ≡ other.now → result ≡ true }
{
    if one.len() != other.len() {
        return false;
    }
    for place in 0..one.len() {
        if !same_object(one, other, place) {
            return false;
        }
    }
    true
}

/// Whether of two tables of locks the same is held at this place, in ascending order of addresses, or in both none.
fn same_lock(one: &Locks, other: &Locks, place: usize) -> bool
    ensures { result ≡ true → slice_get (finite.entries one.now) place ≡ slice_get (finite.entries other.now) place }
{
    let Some((address, holder, count)) = one.at(place) else {
        return other.at(place).is_none();
    };
    let Some((next, thread, times)) = other.at(place) else {
        return false;
    };
    same_address(address, next) && holder == thread && count == times
}

/// Whether the same locks are held, by the same threads and as often.
pub(crate) fn same_locks(one: &Locks, other: &Locks) -> bool
    ensures { result ≡ true → one.now ≡ other.now }
{
    if one.len() != other.len() {
        return false;
    }
    for place in 0..one.len() {
        if !same_lock(one, other, place) {
            return false;
        }
    }
    true
}

/// Whether these are equal threads, but for the spare rooms of frames.
pub(crate) fn same_threads(some: &[ThreadCell], others: &[ThreadCell]) -> bool
    ensures { result ≡ true → map code_thread some.now ≡ map code_thread others.now }
{
    if some.len() != others.len() {
        return false;
    }
    for (place, thread) in some.iter().enumerate() {
        if !thread.same(&others[place]) {
            return false;
        }
    }
    true
}

/// The same numbers.
pub(crate) fn copy_numbers(alloc: Global, numbers: &[i32]) -> Result<Vec<i32>, NoMemory>
    ensures { IfOk result (λ v. v.items ≡ numbers.now) }
{
    let mut copies = Vec::with_capacity(alloc, numbers.len())?;
    copies.extend_from_slice(numbers)?;
    Ok(copies)
}

/// Equal threads.
pub(crate) fn copy_threads(
    alloc: Global,
    threads: &[ThreadCell],
) -> Result<Vec<ThreadCell>, NoMemory>
    ensures { IfOk result (λ v. v.items ≡ threads.now) }
{
    let mut copies = Vec::with_capacity(alloc, threads.len())?;
    for thread in threads {
        copies.push(thread.copy(alloc)?)?;
    }
    Ok(copies)
}

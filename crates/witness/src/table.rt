//! How many entries of each thread are left.
ghost use Rattle.std.specs.Prelude.{◌≡◌, ◌≤◌, ◌<◌, ◌+◌, ◌==◌, ℕ, true, length, IfOk, OnOk, if◌then◌else◌};
ghost use Rattle.witness.specs.Walks.{entry_counts, less, allows};
ghost use Rattle.witness.specs.Tables.{count_at};

use std::alloc::{AllocError as NoMemory, Global};

/// The count of a thread.
pub(crate) fn count_at(table: &[u32], thread: u32) -> u32
    ensures { result ≡ count_at table.now thread }
{
    match table.get(thread as usize) {
        Some(count) => *count,
        None => 0,
    }
}

/// Counts an entry of a thread more, which has fewer than this many.
fn count_one(table: &mut Vec<u32>, thread: u32) -> Result<(), NoMemory>
    requires { count_at table.old.items thread < 4294967295 }
    ensures { OnOk result ((t : ℕ) → count_at table.new.items t ≡ (if thread == t then count_at table.old.items t + 1 else count_at table.old.items t)) }
{
    let place = thread as usize;
    if table.len() <= place {
        table.resize(place + 1, 0)?;
    }
    table[place] += 1;
    Ok(())
}

/// How often each thread stands in a schedule.
pub(crate) fn counts_of(alloc: Global, schedule: &[u32]) -> Result<Vec<u32>, NoMemory>
    requires { length schedule.now ≤ 200000 }
    ensures { IfOk result (λ table. (t : ℕ) → count_at table.items t ≡ entry_counts schedule.now t) }
{
    let mut table = Vec::new(alloc);
    for thread in schedule {
        count_one(&mut table, *thread)?;
    }
    Ok(table)
}

/// Whether entries are left for a thread; where they aren't counted, they always are.
pub(crate) fn allows(counted: bool, left: &[u32], thread: u32) -> bool
    ensures { result ≡ allows counted (count_at left.now) thread }
{
    !counted || count_at(left, thread) > 0
}

/// Takes an entry of a thread away, where one is left.
pub(crate) fn use_one(left: &mut [u32], thread: u32)
    ensures { (t : ℕ) → count_at left.new t ≡ less (count_at left.old) thread t }
{
    let place = thread as usize;
    if place >= left.len() {
        return;
    }
    left[place] = left[place].saturating_sub(1);
}

/// The same of a list that is kept.
pub(crate) fn use_entry(left: &mut Vec<u32>, thread: u32)
    ensures { (t : ℕ) → count_at left.new.items t ≡ less (count_at left.old.items) thread t }
{
    use_one(left, thread);
}

/// Whether no entry is left.
pub(crate) fn is_used_up(left: &[u32]) -> bool
    ensures used { result ≡ true → (t : ℕ) → count_at left.now t ≡ 0 }
    ensures told { ((t : ℕ) → count_at left.now t ≡ 0) → result ≡ true }
{
    for count in left {
        if *count > 0 {
            return false;
        }
    }
    true
}

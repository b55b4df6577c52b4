//! Threads, so many times each.
ghost use Rattle.std.specs.Prelude.{◌≡◌, ◌≤◌, ◌++◌, ℕ, replicate, OnOk, OnErr};

use std::alloc::AllocError as NoMemory;

/// Appends a thread, so many times; at most so many where memory is wanting.
pub fn append(order: &mut Vec<u32>, thread: u32, times: u32) -> Result<(), NoMemory>
    ensures appended { OnOk result (order.new.items ≡ order.old.items ++ replicate times thread) }
    ensures kept { OnErr result ((fewer : ℕ) × (fewer ≤ times) × (order.new.items ≡ order.old.items ++ replicate fewer thread)) }
{
    for _step in 0..times {
        order.push(thread)?;
    }
    Ok(())
}

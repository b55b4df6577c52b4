//! Tables of values by number, which grow as they are written.
ghost use Rattle.std.specs.Prelude.{◌≡◌, ℕ, OnOk, OnErr};
ghost use Rattle.serialise.specs.Tables.{value_or, put_at};

use std::alloc::AllocError as NoMemory;

/// The value of a number; this one where none was put.
pub fn value_at<T: Copy>(table: &[T], empty: T, number: u32) -> T
    ensures { result ≡ value_or empty table.now number }
{
    match table.get(number as usize) {
        Some(value) => *value,
        None => empty,
    }
}

/// Puts the value of a number. After want of memory the table is as before.
pub fn put<T: Copy>(table: &mut Vec<T>, empty: T, number: u32, value: T) -> Result<(), NoMemory>
    ensures put { OnOk result ((other : ℕ) → value_or empty table.new.items other ≡ put_at (value_or empty table.old.items) number value other) }
    ensures err { OnErr result (table.new.items ≡ table.old.items) }
{
    let place = number as usize;
    if table.len() <= place {
        table.resize(place + 1, empty)?;
    }
    table[place] = value;
    Ok(())
}

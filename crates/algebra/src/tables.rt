//! Tables of basics: the first entry, and the halves.
ghost use Rattle.std.specs.Prelude.{◌≡◌};
ghost use Rattle.algebra.specs.Tables.{first_entry, half_table};

use crate::basic::Basic;

/// The first basic; const where there is none.
pub fn front(table: &[Basic]) -> Basic
    ensures { result ≡ first_entry table.now }
{
    table.first().copied().unwrap_or(Basic::Const)
}

/// One half of a table.
pub fn half(table: &[Basic], passes: bool) -> &[Basic]
    ensures { result.now ≡ half_table passes table.now }
{
    let middle = table.len() / 2;
    if passes {
        &table[middle..]
    } else {
        &table[..middle]
    }
}

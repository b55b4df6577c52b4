//! Tests for equal addresses and values.
ghost use Rattle.std.specs.Prelude.{◌≡◌, true};

use crate::value::{Address, Value};

/// Whether these are equal addresses.
pub fn same_address(one: Address, other: Address) -> bool
    ensures same { result ≡ true → one ≡ other }
    ensures told { one ≡ other → result ≡ true }
{
    one == other
}

/// Whether these are equal addresses, one by one.
pub(crate) fn same_addresses(some: &[Address], others: &[Address]) -> bool
    ensures { result ≡ true → some.now ≡ others.now }
{
    some == others
}

/// Whether these are equal values, one by one.
pub fn same_values(some: &[Value], others: &[Value]) -> bool
    ensures same { result ≡ true → some.now ≡ others.now }
    ensures told { some.now ≡ others.now → result ≡ true }
{
    some == others
}

//! The line that the program writes for words that are no row.

/// What is written for words that are no row.
pub const USAGE: &[u8] =
    b"usage: atomic check FILE | run FILE SCHEDULE | serialise FILE SCHEDULE | derive FILE | verify FILE BOOK | print FILE | generate N | serialise-open FILE SCHEDULE | blame FILE | verify-blame FILE CERT | levels FILE LEVELS | replay FILE SCHEDULE\n";

//! The limits of classes and methods.

/// How many fields a class may have.
pub const MOST_FIELDS: usize = 32;

/// How many parameters a method or a constructor may have.
pub const MOST_PARAMS: usize = 16;

//! Parts that are gathered one after the other, and of which one may be missing.

ghost use Rattle.std.specs.Prelude.{◌≡◌, [], Some, OnOk, option_map};
ghost use Rattle.typing.specs.Gathered.{gathered, one_more};

use std::alloc::{AllocError as NoMemory, Global};

/// The parts so far, and whether one was missing.
#[derive(Drop)]
pub(crate) struct Gathered<T> {
    items: Vec<T>,
    missing: bool,
}

impl<T: Drop> Gathered<T> {
    /// No part so far, and none missing.
    pub(crate) fn new(alloc: Global) -> Gathered<T>
        ensures { gathered result ≡ Some [] }
    {
        Gathered {
            items: Vec::new(alloc),
            missing: false,
        }
    }

    /// Adds a part behind the others, or notes that it is missing.
    pub(crate) fn add(&mut self, part: Option<T>) -> Result<(), NoMemory>
        ensures { OnOk result (gathered self.new ≡ one_more (gathered self.old) part) }
    {
        match part {
            Some(part) => self.items.push(part)?,
            None => self.missing = true,
        }
        Ok(())
    }

    /// All parts, where none was missing.
    pub(crate) fn all(self) -> Option<Vec<T>>
        ensures { option_map (λ v. v.items) result ≡ gathered self }
    {
        if self.missing {
            return None;
        }
        Some(self.items)
    }
}

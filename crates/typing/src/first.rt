//! Keeps the first of the faults that are found.

ghost use Rattle.std.specs.Prelude.{◌≡◌, [], ◌∷◌, None};
ghost use Rattle.typing.specs.Noted.{type_noted};

use crate::fault::TypeFault;
use classes::first_of;
use std::marker::Model;

/// The first of the faults that were noted.
#[derive(Drop)]
pub struct FirstFault {
    pub found: Option<TypeFault>,
}

impl Model for FirstFault {
    ghost use Rattle.std.specs.Prelude.{Option};
    ghost use Rattle.typing.specs.declared.fault.TypeFault.{TypeFault};

    ghost Value = { Option TypeFault };

    ghost view = { λ f. f.found };

    ghost inverse = { λ f. record { found = f } };
}

impl FirstFault {
    /// No fault so far.
    pub fn new() -> FirstFault
        ensures { result ≡ None }
    {
        FirstFault { found: None }
    }

    /// Keeps this fault where it comes before the one that was kept.
    pub fn note(&mut self, fault: TypeFault)
        ensures { self.new ≡ type_noted self.old (fault ∷ []) }
    {
        self.found = first_of(self.found, fault);
    }
}

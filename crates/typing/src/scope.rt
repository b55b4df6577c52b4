//! The parameters and locals in scope.

ghost use Rattle.std.specs.Prelude.{◌≡◌, option_map};
ghost use Rattle.typing.specs.Scopes.{variable};
ghost use Rattle.typing.specs.Names.{variable_of};

use core_program::CoreType;
use std::marker::Model;

/// A parameter or local in scope, whose name is a slice of the source.
#[derive(Drop)]
pub struct Bound<'a> {
    pub name: &'a str,
    pub slot: u16,
    pub is_final: bool,
    pub ty: CoreType,
}

impl<'a> Model for Bound<'a> {
    ghost use Rattle.typing.specs.Scopes.{Binding};

    ghost Value = { Binding };

    ghost view = { λ b. record { name = b.name.now; variable = record { slot = b.slot; is_final = b.is_final; ty = b.ty } } };
}

/// The slot, finality and type of a variable.
#[derive(Clone, Copy)]
pub struct Slot {
    pub slot: u16,
    pub is_final: bool,
    pub ty: CoreType,
}

/// The variable of this name.
pub fn find(scope: &[Bound], name: &str) -> Option<Slot>
    ensures { option_map variable_of result ≡ variable scope.now name.now }
{
    for b in scope {
        if b.name == name {
            return Some(Slot {
                slot: b.slot,
                is_final: b.is_final,
                ty: b.ty,
            });
        }
    }
    None
}

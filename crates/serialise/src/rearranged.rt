//! A schedule in another order.
use machine::Machine;

/// A schedule in another order, and the machine that ran it as it was given, at its end.
#[derive(Drop)]
pub struct Rearranged<'p> {
    pub order: Vec<u32>,
    pub machine: Machine<'p>,
}

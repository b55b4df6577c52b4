//! What classes and members owe each other: the faults of a program, the rule of constructors, and which of several
//! faults is the first. The table of a program's classes, fields and methods.
#![tactic(auto)]

mod above;
mod alike;
mod build;
mod check;
mod clashes;
mod climbs;
mod constructors;
mod entries;
mod family;
mod fault;
mod first;
mod jumps;
mod laws;
mod limits;
mod lookup;
mod make;
mod members;
mod names;
mod numbered_fields;
mod numbers;
mod overriding;
mod own;
mod starts;

pub use check::first_fault;
pub use entries::{ClassEntry, ClassTable, FieldEntry, MethodEntry, ParamEntry};
pub use fault::ClassFault;
pub use first::{FaultPlace, Placed, first_of};
pub use laws::{above_laws, declaration_laws, plain_laws};
pub use limits::{MOST_FIELDS, MOST_PARAMS};
pub use make::table;
pub use names::NameSet;
pub use own::{OwnNames, all_own_names};

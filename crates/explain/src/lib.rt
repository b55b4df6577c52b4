//! Why a method is refused: the steps that can't be moved past those of other threads (after Lipton 1975), the first
//! part that is an error by itself, and the lock that would help. Laws say what these are; code finds them in one walk
//! through a body, with the basic of each part, and says what the steps do and what is wrong with an error.
#![tactic(auto)]

mod advice;
mod asked;
mod assigned;
mod causes;
mod circles;
mod deeds;
mod entries;
mod errors;
mod explaining;
mod final_fields;
mod finals;
mod found;
mod grounds;
mod laws_of_explanations;
mod names;
mod program;
mod ranking;
mod step_and_place_laws;
mod strict;
mod takings;
mod unguarded;
mod waiting;
mod walk;
mod wrapping;

pub use advice::fitting;
pub use assigned::Shown;
pub use causes::{Cause, cause_of};
pub use circles::find_grounds;
pub use deeds::{Deed, Help, deed_of, help_of};
pub use explaining::{Why, basics};
pub use final_fields::FinalFields;
pub use found::{CorePart, Visited};
pub use grounds::Ground;
pub use laws_of_explanations::{
    around_laws, explanation_laws, hold_laws, leading_laws, reason_laws, taking_laws,
};
pub use names::{Alias, Lack, aliases, ascending};
pub use program::{Explained, explanations};
pub use ranking::Bounds;
pub use step_and_place_laws::{error_laws, help_laws, place_laws, step_laws};
pub use strict::{keep_strictly, strict_explanations};
pub use unguarded::{BareWrite, bare_writes};
pub use walk::Walk;
pub use wrapping::around;

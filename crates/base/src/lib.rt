//! General facts on lists, options, numbers, digits and texts that std has not; the decimal digits of a number behind a
//! text; and ancestors: when going up from number to number ends, and how that is tested in as many steps as there are
//! numbers.
#![tactic(auto)]

mod ancestors;
mod lemmas;
mod numbers;

pub use ancestors::{circle_laws, reaching_laws};
pub use lemmas::{digit_laws, list_laws, number_laws, option_laws, text_laws};
pub use numbers::write_number;

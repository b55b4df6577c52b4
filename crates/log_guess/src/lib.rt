//! What guards places: given in a text, or guessed from a log. The theorem of logs holds for any guards, so no contract says
//! which ones are guessed.
#![tactic(auto)]

mod given;
mod guess;

pub use given::{GivenEnd, read_guards};
pub use guess::{GuessEnd, Guessed, guess_file};

//! Examples of explanations and of their lines, which the check computes.
#![tactic(auto)]

pub mod arrangements;
pub mod basics;
pub mod causes;
pub mod circles;
pub mod deeds;
pub mod finals;
pub mod lines;
pub mod names;
pub mod reasons;
pub mod slots;
pub mod strict;
pub mod takings;
pub mod unguarded;
pub mod walks;
pub mod words;

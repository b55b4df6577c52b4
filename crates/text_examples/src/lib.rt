//! Examples of what is defined above rules and machine: certificates of refusal, rules of derivations and judged books,
//! walks by lock levels, the open order, plain evaluation, and the calls that are evaluated. The check computes them.
//! Examples of what is defined of texts: schedules, conditional atomicities, books, certificates of refusal, lock
//! levels, and the lines that the program writes. The check computes them.
#![tactic(auto)]

pub mod book_lines;
pub mod book_texts;
pub mod calls;
pub mod certificates;
pub mod derivations;
pub mod evaluation;
pub mod faults;
pub mod judgements;
pub mod level_texts;
pub mod open_calls;
pub mod refusals;
pub mod replayed;
pub mod schedules;
pub mod states;
pub mod trees;
pub mod verdicts;
pub mod walks;

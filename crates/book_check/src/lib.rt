//! Checking a book of derivations against a program, with no inference: whoever wrote the book, a program whose book is
//! good is accepted. The rule of a node gives, as a tree, the value of the part of a body that the node stands for,
//! from what its premises conclude. A step is whether the conclusion is at or above that value, told with no tree for
//! it where it can be. A walk along the nodes asks of each its shape and its step. The work on trees has a bound, or
//! none.
#![tactic(auto)]

mod acceptance;
mod accesses;
mod asked;
mod book_work;
mod branching;
mod chain;
mod charged;
mod checked;
mod judge;
mod leaves;
mod line;
mod lookups;
mod names;
mod overs;
mod pairs;
mod parts;
mod passes;
mod refusal;
mod rule_values;
mod sequences;
mod steps;
mod stuck;
mod unmoved;
mod values;
mod walk;
mod work;
mod wrong;

pub use acceptance::{Refused, RefusedText, accept, accept_text};
pub use accesses::access;
pub use book_work::MOST_WORK;
pub use checked::Checked;
pub use judge::Judge;
pub use lookups::{conclusion, is_near, is_own_near, line_number, tree_at};
pub use names::{call_name, tests_either, tests_only, where_held, within};
pub use parts::{part_word, same_length};
pub use refusal::Refusal;
pub use rule_values::{call, keeps_paths, paths, rule};
pub use steps::{Steps, is_step};
pub use values::{below, leaf};
pub use work::{MOST_DEPTH, Work};
pub use wrong::{TextWrong, Wrong};

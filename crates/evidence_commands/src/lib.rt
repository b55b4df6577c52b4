//! The commands on what others can check, over the bytes of their files: `derive` and `verify` of books, `blame` and
//! `verify-blame` of certificates of refusal, `levels` of lock levels. What each answers, when it ends how, and the
//! lines for what is refused.
#![tactic(auto)]

mod blaming;
mod book_lines;
mod certificate_lines;
mod judging;
mod level_lines;
mod ordering;
mod verifying;
mod writing;

pub use blaming::blame_source;
pub use book_lines::{WrongKind, book_fault_text, wrong_text};
pub use judging::verify_book;
pub use ordering::order_levels;
pub use verifying::verify_blame;
pub use writing::derive_book;

//! What the first fault of a text that is no book's is, apart from how the text is read.
#![tactic(auto)]

mod laws;

pub use laws::first_book_faults;

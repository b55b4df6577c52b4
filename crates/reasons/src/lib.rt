//! Laws of explanations: each method that is told by those of a program's least closed assignment is more than it may
//! be and has a reason; what is told of an error and of what helps is so.
#![tactic(auto)]

mod laws;

pub use laws::{
    error_laws, final_laws, ground_laws, help_laws, least_laws, strict_laws, told_laws,
};

//! What acceptance means, over the definitions of steps: reduction, after Lipton (1975). Movers are proved for any
//! system of threads: a run whose blocks have reducible words has a serial one with the same end, in which each thread
//! passes through the same. That the machine has movers is the exchange of neighbouring steps, of any program. That
//! words are reducible comes from safe states: what each thread has still to do fits the rules of atomicity, at locks
//! that the thread holds. So along every run of an accepted program no guarded field is accessed without its guard, and
//! each schedule has its written order: same state, no interruption, same own states. A run that is cut off inside blocks
//! has its open order, in any system with movers: same end, and each block in one piece.
#![tactic(auto)]

mod accepting;
pub mod examples;
mod held_laws;
mod neighbour_laws;
mod open_order_laws;
mod opening_laws;
mod system_laws;
mod turns;
mod written_order_laws;

pub use accepting::accepted_laws;
pub use held_laws::{guards_held, phases_give_words, reducible_words, safe_states};
pub use neighbour_laws::{address_laws, exchange_laws, mover_laws};
pub use open_order_laws::open_order_gathers;
pub use opening_laws::unfolding_laws;
pub use system_laws::reduction;
pub use turns::turn_laws;
pub use written_order_laws::{accepted_programs_rewrite, written_order_runs};

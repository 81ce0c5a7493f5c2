//! Systems of constraints `t_to - t_from >= w + q * period` between the ticks of nodes, and their pointwise least
//! solutions.
#![tactic(auto)]

pub mod laws;
mod least_ticks;
mod packing;
mod room;
mod rounds;
mod settling;
mod systems;

pub use least_ticks::{LeastTicks, least, least_in};
pub use room::{Near, Room, Step};
pub use rounds::fill;
pub use systems::{Arc, System};

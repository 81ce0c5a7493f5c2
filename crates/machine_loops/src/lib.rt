// Loops of the tick machine: closed lists of its frames, and the legal timetables that they show.
#![tactic(auto)]

mod checking;
pub mod laws;
mod looping;
mod reading;
mod rules;
mod seen;

pub use looping::{Looped, every_loop};
pub use rules::keeps;

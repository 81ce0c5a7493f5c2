//! The jobs of a round, answered by several workers who claim them from one board. The answers
//! stand in the order of the jobs, whatever the number of workers and their turns.
#![tactic(auto)]

pub mod laws;
mod order;
mod round;
mod work;
mod worker;

pub use round::{run, run_in};
pub use work::Work;

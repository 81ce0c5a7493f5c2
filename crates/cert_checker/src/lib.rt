// The checker of answers: whether an answer's tree proves its bound, with the first reason where an answer is rejected.
#![tactic(auto)]

mod checked;
mod checking;
mod claims;
pub mod laws;
mod nodes;
mod passed;
mod periods;
mod reason;
mod tree;
mod walks;

pub use checked::{Checked, Claimed};
pub use checking::check;
pub use cycle_walk::Sums;
pub use reason::Reason;

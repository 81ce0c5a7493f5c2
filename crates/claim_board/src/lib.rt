//! A board from which the seats of several workers draw the numbers below n, each number once, by
//! one atomic step on a word that all seats share.
#![tactic(auto)]

mod board;
mod claim;
pub mod laws;
mod rule;
mod seat;

pub use board::Board;
pub use claim::Claim;
pub use seat::Seat;

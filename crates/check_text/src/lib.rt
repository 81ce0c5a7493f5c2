//! What the checker says of an answer, in words.
#![tactic(auto)]

mod faults;
mod reasons;

pub use faults::fault_text;
pub use reasons::checked_text;

//! Many lines at once: each is solved by one of several workers, and their texts stand in the order of the lines.
#![tactic(auto)]

mod batches;
pub mod laws;
mod parts;
mod reads;
mod single;
mod solving;

pub use batches::{batch, batch_text};
pub use single::{Single, Singles, Text};

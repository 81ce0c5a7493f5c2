//! Logs of what the control of a line did, tick by tick: how far the tick machine follows them, and how they are
//written.
#![tactic(auto)]

mod fields;
mod followed;
pub mod laws;
mod positions;
mod recording;
mod text;
mod ticks;
mod walk;

pub use followed::{Followed, follow};
pub use recording::write_log;
pub use text::followed_text;

// Which offsets of the starts of two moves are forbidden.
#![tactic(auto)]

mod corner;
pub mod laws;
mod pairs;
mod span;

pub use pairs::clash;
pub use span::Span;

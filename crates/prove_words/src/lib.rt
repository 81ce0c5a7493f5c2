//! What the words of the program `hoist_prove` ask for.
#![tactic(auto)]

mod words;

pub use words::{Asked, read_words};

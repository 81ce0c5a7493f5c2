//! What the words of the program `hoist_report` ask for.
#![tactic(auto)]

mod words;

pub use words::{Asked, Form, read_words};

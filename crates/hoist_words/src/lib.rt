//! What the words of the program ask for.
#![tactic(auto)]

mod commands;
mod forms;
mod found;
pub mod laws;
mod numbers;
mod requests;
mod table;
mod words;

pub use numbers::number_within;
pub use requests::Request;
pub use words::read_words;

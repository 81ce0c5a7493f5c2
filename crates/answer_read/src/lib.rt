//! The reader of answers' texts: whole answers, or where the bytes stop being one.
#![tactic(auto)]

mod answer;
mod lines;
mod row;
mod table;
mod tree;

pub use answer::{AnswerRead, read_answer};

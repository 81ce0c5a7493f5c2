//! Answers to a line, and their texts.
#![tactic(auto)]

mod answer;
mod fields;
mod limits;
mod nodes;
mod tables;
mod words;
mod write;

pub use answer::{Answer, Verdict};
pub use limits::{
    LAST_TICK, MOST_BOUND, MOST_CARRIER, MOST_CHILDREN, MOST_DECISION, MOST_PERIOD, MOST_POSITION,
    MOST_SHIFT, MOST_SPLITS, MOST_STAGE, MOST_TOKENS,
};
pub use words::{TokenKind, version};
pub use write::write_answer;

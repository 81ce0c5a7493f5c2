//! Numbers and words, written at the end of a text.
#![tactic(auto)]

mod numbers;
mod worded;

pub use numbers::{
    push_number, push_pair, push_signed, push_word_number, push_word_pair, push_word_signed,
};
pub use worded::Worded;

//! Readers of fields from the front of bytes: words, numbers, and one of several words.
//!
//! A reader answers the value and the bytes behind it, or a `Stop`: how many bytes are left behind the longest front
//! with which some text of the field goes on. Where readers are called one after another, the first stop is that of
//! them all.
#![tactic(auto)]

mod fields;
pub mod laws;
mod stop;

pub use fields::{kind, known_number, known_pair, number, signed, word};
pub use stop::Stop;

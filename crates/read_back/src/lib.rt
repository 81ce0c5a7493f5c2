//! What is known of an answer that was written and read back: laws, whose calls do nothing.
#![tactic(auto)]

pub mod laws;

//! How deep the tree of a search can grow, and how many splits are enough for every search of a line: laws, whose calls
//! do nothing.
#![tactic(auto)]

pub mod laws;

//! The search: rounds of expansions that grow a tree of questions until no path is left or the budget is spent.
#![tactic(auto)]

mod bounds;
mod expanding;
mod frontier;
pub mod laws;
mod outcome;
mod path;
mod rounds;
mod searching;
mod state;
mod taking;
mod workers;

pub use outcome::Outcome;
pub use searching::{search, search_alone};

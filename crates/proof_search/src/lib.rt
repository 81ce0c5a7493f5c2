//! A search for short proofs that a period is the least of a line: what it proposes is checked by others.
#![tactic(auto)]

mod changes;
mod driver;
mod frames;
mod hunting;
mod leaf;
mod literals;
mod nogoods;
mod order_question;
mod paths;
mod plan_text;
mod proposal;
mod question;
mod search;
mod share_question;
mod state;
mod tree;
mod tree_text;

pub use proposal::propose;

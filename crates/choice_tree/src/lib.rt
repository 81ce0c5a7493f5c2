// The tree of choices that a search makes: its questions, decisions, walks of constraints and nodes.
#![tactic(auto)]

mod constraint;
pub mod laws;
mod node;
mod question;
mod tree;

pub use constraint::{Constraint, Proof};
pub use node::{Children, Node};
pub use question::{Decision, Question};
pub use tree::Tree;

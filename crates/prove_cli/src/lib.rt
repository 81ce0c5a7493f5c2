//! All that the program `hoist_prove` does: it reads its words and the line file that they name, has an answer
// proposed, ! and prints it where the checker accepts it.
#![tactic(auto)]

mod settling;
mod top;

pub use settling::settle;
pub use top::hoist_prove;

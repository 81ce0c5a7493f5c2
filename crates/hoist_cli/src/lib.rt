//! All that the program does: it reads its words and the files that they name, and prints the answer or what is wrong.
#![tactic(auto)]

mod batching;
mod checking;
mod drawing;
mod drilling;
mod files;
mod following;
pub mod laws;
mod replies;
mod solving;
mod status;
mod sweeping;
mod top;

pub use files::{ANSWER_LIMIT, line_and_answer, line_in};
pub use replies::{Reply, Stop, settled};
pub use solving::status_on;
pub use status::Status;
pub use top::hoist;

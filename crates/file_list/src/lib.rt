//! The list of files that are to be solved together: a name a line.
#![tactic(auto)]

mod front;
mod list;
mod read;

pub use list::FileList;
pub use read::{ListRead, read_list};

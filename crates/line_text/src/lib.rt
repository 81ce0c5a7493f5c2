// The line file: reading it with the first fault named, and writing it.
#![tactic(auto)]

mod fields;
mod laws;
mod parts;
mod read;
mod refusal;
mod tables;
mod texts;
mod values;
mod why;
mod write;

pub use fields::{Field, Kind, Rule};
pub use laws::{line_files_are_read, written_lines_are_read};
pub use read::read_line;
pub use refusal::refusal_text;
pub use why::{Key, LineRead, Place, Why};
pub use write::write_line;

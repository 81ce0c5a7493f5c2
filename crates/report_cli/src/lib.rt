//! All that the program `hoist_report` does: it reads its words and the files that they name, has the answer checked,
//! and prints a page or a document of JSON where it is accepted and has a timetable, else what is wrong.
#![tactic(auto)]

mod drawing;
mod top;

pub use top::report;

// The program `hoist_report`.

mod answers;
mod documents;
mod ends;
mod runs;

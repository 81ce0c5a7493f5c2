// What is asked first below a path of decisions, and what the search reckons once for a line.
#![tactic(auto)]

mod asking;
mod lookup;
mod marks;
mod pairs;
mod starts;
mod stays;

pub use asking::first_question;
pub use lookup::Lookup;
pub use path_constraints::{
    base_of, child_count, constraint_of, decide, fails, fits, hoist_below, is_stuck, system_of,
    tanks_below,
};

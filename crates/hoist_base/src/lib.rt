// The line: tanks, stages, their names and limits, and the names of moves and visits.
#![tactic(auto)]

mod flaw;
mod ids;
pub mod limits;
mod line;
mod name;
mod numbering;
mod parts;
mod route;
mod stage;
mod tank;
mod valid;

pub use flaw::Flaw;
pub use ids::{MoveId, VisitId};
pub use line::Line;
pub use name::Name;
pub use parts::LineParts;
pub use route::Route;
pub use stage::{Stage, Tanks};
pub use tank::Tank;

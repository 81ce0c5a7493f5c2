//! By how many ticks all windows of a timetable could be narrowed, at its period and in its order.
#![tactic(auto)]

mod chosen;
pub mod laws;
mod limits;
mod margin_arcs;
mod margins;
mod order_arcs;
mod orders;
mod reads;
mod systems;
mod texts;
mod walks;

pub use margins::margin;
pub use reads::{MarginArc, MarginRead, MarginWalk};
pub use texts::margin_text;

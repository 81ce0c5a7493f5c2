// The tick machine: a line that is stepped tick by tick by orders, from local rules alone.
#![tactic(auto)]

mod beginning;
mod breach;
mod driver;
mod event;
mod frame;
mod limits;
mod log;
mod lowering;
mod motions;
mod moves;
mod order;
mod playing;
mod run;
mod setting;
mod stations;
mod stepping;

pub use breach::Breach;
pub use driver::Driver;
pub use event::{Event, What};
pub use frame::{Carry, Frame, Hold, Rest, empty};
pub use order::{Go, Order};
pub use playing::Playing;
pub use run::{Played, play};
pub use stepping::step;

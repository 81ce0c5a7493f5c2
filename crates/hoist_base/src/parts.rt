// The parts that a line is made of.
use crate::stage::Stage;
use crate::tank::Tank;

/// The parts of a line; `Line::new` makes the line of parts that are valid.
///
/// Positions and the `gap` between neighbouring hoists are in ticks of travel. `load` and `unload` are the ticks
/// that a carrier spends at the load station before a lift and at the unload station after it was set down.
/// `degree` says how many carriers enter in each period, and `max_period` is the greatest period that a search
/// considers.
#[derive(Debug, Drop)]
pub struct LineParts {
    pub track: u32,
    pub gap: u32,
    pub hoists: u32,
    pub degree: u32,
    pub max_period: u32,
    pub load: u32,
    pub unload: u32,
    pub tanks: Vec<Tank>,
    pub stages: Vec<Stage>,
}

//! What a hunt finds.

use std::alloc::{AllocError, Global};

/// A timetable as a search finds it: its period in ticks, the start of each move after that of the first one in ticks
/// and the number of its hoist, carrier by carrier and step by step, and the number of the tank of each visit, carrier
/// by carrier and stage by stage.
#[derive(Debug, Drop)]
pub struct Found {
    pub period: u32,
    pub ticks: Vec<i64>,
    pub hoists: Vec<u32>,
    pub tanks: Vec<u32>,
}

impl Found {
    /// A copy.
    pub fn copied(&self, alloc: Global) -> Result<Found, AllocError> {
        Ok(Found {
            period: self.period,
            ticks: Vec::from_slice(alloc, self.ticks.as_slice())?,
            hoists: Vec::from_slice(alloc, self.hoists.as_slice())?,
            tanks: Vec::from_slice(alloc, self.tanks.as_slice())?,
        })
    }
}

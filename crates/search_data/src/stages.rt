// Stages as a search sees them.

use hoist_base::{Line, Stage};
use std::alloc::{AllocError, Global};
use walk_tables::at;

/// A stage: the numbers of its tanks, its window and the ticks to lift out of it and to lower into it.
#[derive(Clone, Copy)]
pub struct Stop {
    pub count: usize,
    pub tanks: [u32; 4],
    pub min: i64,
    pub max: Option<i64>,
    pub lift: i64,
    pub lower: i64,
}

/// Stands where no stage is.
pub const NO_STAGE: Stop = Stop {
    count: 0,
    tanks: [0; 4],
    min: 0,
    max: None,
    lift: 0,
    lower: 0,
};

impl Stop {
    /// The tank that a choice names.
    #[inline]
    pub fn tank(&self, choice: u8) -> u32 {
        self.tanks[choice as usize % 4]
    }

    /// Whether a tank serves both stages.
    pub fn meets(&self, other: &Stop) -> bool {
        for i in 0..self.count.min(4) {
            for j in 0..other.count.min(4) {
                if self.tanks[i] == other.tanks[j] {
                    return true;
                }
            }
        }
        false
    }
}

/// When a visit holds its tank: from a part beyond the tick of the node `begin` to a part beyond that of the node
/// `end`.
#[derive(Clone, Copy)]
pub struct Hold {
    pub begin: u32,
    pub begin_part: i64,
    pub end: u32,
    pub end_part: i64,
}

fn stop_of(stage: &Stage) -> Stop {
    let numbers = stage.tanks.as_slice();
    let mut tanks = [0u32; 4];
    for i in 0..4 {
        tanks[i] = at(numbers, i, 0);
    }
    Stop {
        count: numbers.len().min(4),
        tanks,
        min: i64::from(stage.min),
        max: stage.max.map(|most| i64::from(most)),
        lift: i64::from(stage.lift),
        lower: i64::from(stage.lower),
    }
}

/// The stages of a line.
pub(crate) fn stops_of(alloc: Global, line: &Line) -> Result<Vec<Stop>, AllocError> {
    let mut stops = Vec::new(alloc);
    for stage in line.stages() {
        stops.push(stop_of(stage))?;
    }
    Ok(stops)
}

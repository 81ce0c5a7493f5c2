//! A timetable in the numbers of the search.

use std::alloc::{AllocError, Global};

/// A timetable: the ticks, the hoists and the choices of tanks at a period.
#[derive(Drop)]
pub(crate) struct Plan {
    pub(crate) period: i64,
    /// The start of each move.
    pub(crate) ticks: Vec<i64>,
    /// The hoist of each move.
    pub(crate) hoists: Vec<u8>,
    /// For each visit the place of its tank among those of its stage.
    pub(crate) choices: Vec<u8>,
}

impl Plan {
    /// A copy.
    pub(crate) fn copied(&self, alloc: Global) -> Result<Plan, AllocError> {
        Ok(Plan {
            period: self.period,
            ticks: Vec::from_slice(alloc, self.ticks.as_slice())?,
            hoists: Vec::from_slice(alloc, self.hoists.as_slice())?,
            choices: Vec::from_slice(alloc, self.choices.as_slice())?,
        })
    }

    /// The same timetable over `times` periods as one.
    pub(crate) fn repeated(&self, alloc: Global, times: u32) -> Result<Plan, AllocError> {
        let mut plan = Plan {
            period: self.period.wrapping_mul(i64::from(times)),
            ticks: Vec::new(alloc),
            hoists: Vec::new(alloc),
            choices: Vec::new(alloc),
        };
        for time in 0..times {
            let later = self.period.wrapping_mul(i64::from(time));
            for tick in &self.ticks {
                plan.ticks.push(tick.wrapping_add(later))?;
            }
            plan.hoists.extend_from_slice(self.hoists.as_slice())?;
            plan.choices.extend_from_slice(self.choices.as_slice())?;
        }
        Ok(plan)
    }
}

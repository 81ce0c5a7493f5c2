// Turns of the search with the hunt for timetables.

use crate::search::{Best, Search};
use hoist_base::Line;
use search_data::Problem;
use std::alloc::{AllocError, Global};
use timetable_hunt::{Found, Hunt};
use walk_tables::at;

// Where the hunt's chance begins.
const SEED: u64 = 1;

/// The hunt that takes turns with the search, how many nodes were expanded when it had its last turn, and how many
/// 16ths of a node its work may still count for.
#[derive(Drop)]
pub(crate) struct Turns {
    hunt: Hunt,
    seen: u64,
    credit: u64,
}

impl Turns {
    /// A hunt that has done its first step, which counts for no node.
    pub(crate) fn new(alloc: Global, line: &Line, low: i64) -> Result<Turns, AllocError> {
        let low = u32::try_from(low).unwrap_or(1);
        let mut hunt = Hunt::new(alloc, line, low, SEED)?;
        hunt.turn(1)?;
        Ok(Turns {
            hunt,
            seen: 0,
            credit: 0,
        })
    }

    // Works for what stands to its credit; for how many nodes that counts.
    fn work(&mut self, rate: u64) -> Result<u64, AllocError> {
        let work = (self.credit / 16).saturating_mul(rate);
        if work == 0 || rate == 0 || self.hunt.is_done() {
            return Ok(0);
        }
        let nodes = self.hunt.turn(work)? / rate;
        self.credit = self.credit.saturating_sub(nodes.saturating_mul(16));
        Ok(nodes)
    }
}

// The choice among a visit's tanks that a tank is.
fn choice_of(problem: &Problem, visit: usize, tank: u32) -> u8 {
    let stop = problem.stop_of(visit);
    for choice in 0..4u8 {
        if (choice as usize) < stop.count && stop.tank(choice) == tank {
            return choice;
        }
    }
    0
}

impl<'a> Search<'a> {
    // What was found elsewhere, as the best.
    fn taken(&self, found: &Found) -> Result<Best, AllocError> {
        let mut best = Best {
            period: i64::from(found.period),
            ticks: Vec::from_slice(self.alloc, &found.ticks)?,
            hoists: Vec::new(self.alloc),
            route: Vec::new(self.alloc),
        };
        for hoist in found.hoists.iter() {
            best.hoists.push(u8::try_from(*hoist).unwrap_or(0))?;
        }
        for visit in 0..self.problem.visits {
            let tank = at(&found.tanks, visit, 0);
            best.route.push(choice_of(self.problem, visit, tank))?;
        }
        Ok(best)
    }

    // The best as the hunt takes it.
    fn given(&self, best: &Best) -> Result<Found, AllocError> {
        let mut found = Found {
            period: u32::try_from(best.period).unwrap_or(u32::MAX),
            ticks: Vec::from_slice(self.alloc, &best.ticks)?,
            hoists: Vec::new(self.alloc),
            tanks: Vec::new(self.alloc),
        };
        for hoist in best.hoists.iter() {
            found.hoists.push(u32::from(*hoist))?;
        }
        for visit in 0..self.problem.visits {
            let choice = at(&best.route, visit, 0);
            found.tanks.push(self.problem.stop_of(visit).tank(choice))?;
        }
        Ok(found)
    }

    // The work of a hunt that counts for one node.
    fn rate(&self) -> u64 {
        let nodes = self.problem.nodes as u64;
        nodes.saturating_mul(nodes).saturating_mul(20)
    }

    // How many 16ths of the search's own work the hunt may do: the less, the less is open.
    fn share(&self, low: i64) -> u64 {
        let top = self.top();
        let gap = top.wrapping_sub(low);
        if gap > top / 4 {
            16
        } else if gap > top / 8 {
            8
        } else {
            1
        }
    }

    /// Lets the hunt work a share of what the search has worked since the last time, and takes its best. Periods below
    /// `low` are refuted.
    pub(crate) fn hunt(&mut self, turns: &mut Turns, low: i64) -> Result<(), AllocError> {
        turns.hunt.raise(u32::try_from(low).unwrap_or(1));
        if let Some(best) = &self.best {
            let found = self.given(best)?;
            turns.hunt.take(&found)?;
        }
        let worked = self.nodes.wrapping_sub(turns.seen);
        turns.seen = self.nodes;
        turns.credit = turns
            .credit
            .saturating_add(worked.saturating_mul(self.share(low)));
        let spent = turns.work(self.rate())?;
        self.limit = self.limit.saturating_sub(spent);
        if let Some(found) = turns.hunt.best() {
            if i64::from(found.period) < self.top() {
                self.best = Some(self.taken(found)?);
            }
        }
        Ok(())
    }
}

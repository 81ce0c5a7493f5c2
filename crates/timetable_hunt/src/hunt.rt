//! The hunt on a line: timetables of growing degrees, each begun from those of the degree before.

use crate::found::Found;
use crate::lists::narrow;
use crate::plan::Plan;
use crate::planner::Planner;
use hoist_base::Line;
use std::alloc::{AllocError, Global};
use std::mem;

/// A hunt for good timetables of a line. It proves nothing: what it finds has to be checked. What it finds depends on
/// the line, the seed, the timetables that it was given and the work alone.
///
/// The planners of the degrees that divide the line's take turns. Each hands its best on to the next one, repeated.
#[derive(Drop)]
pub struct Hunt {
    alloc: Global,
    line: Line,
    seed: u64,
    low: u32,
    /// The planner whose turn it is.
    planner: Planner,
    /// The other planners, the next one first.
    waiting: Vec<Planner>,
    best: Option<Found>,
    /// The units of work that are left of the planner's turn, and those of a turn.
    left: u64,
    share: u64,
}

// The period of a timetable of a smaller degree that, repeated, has a period, rounded down.
fn part_of(period: u32, degree: u32, whole: u32) -> i64 {
    let product = u64::from(period).wrapping_mul(u64::from(degree));
    (product / u64::from(whole).max(1) & 0xffff_ffff) as i64
}

// The least period of a timetable of a smaller degree that, repeated, has at least a period.
fn least_part(period: u32, degree: u32, whole: u32) -> i64 {
    let times = whole / degree.max(1);
    part_of(
        period.saturating_add(times.saturating_sub(1)),
        degree,
        whole,
    )
}

// A planner on a line with another degree.
fn planner_of(
    alloc: Global,
    line: &Line,
    degree: u32,
    low: u32,
    seed: u64,
) -> Result<Planner, AllocError> {
    let low = least_part(low, degree, line.degree()).max(1);
    let high = part_of(line.max_period(), degree, line.degree());
    let degree = if 1 <= degree && degree <= 4 {
        degree
    } else {
        1
    };
    let line = line.of_degree(alloc, degree)?;
    Planner::new(alloc, line, low, high, seed)
}

impl Hunt {
    /// A hunt on a line for periods from `low` ticks on.
    pub fn new(alloc: Global, line: &Line, low: u32, seed: u64) -> Result<Hunt, AllocError> {
        let planner = planner_of(alloc, line, 1, low, seed)?;
        let line = line.of_degree(alloc, line.degree())?;
        let moves = u64::from(line.move_count());
        let share = moves.wrapping_mul(moves).wrapping_mul(200);
        Ok(Hunt {
            alloc,
            line,
            seed,
            low,
            planner,
            waiting: Vec::new(alloc),
            best: None,
            left: share,
            share,
        })
    }

    /// The timetable of the least period so far.
    pub fn best(&self) -> Option<&Found> {
        self.best.as_ref()
    }

    /// Whether nothing is left to hunt for.
    pub fn is_done(&self) -> bool {
        let is_whole = self.degree() == self.line.degree();
        match &self.best {
            Some(found) => {
                found.period <= self.low || is_whole && self.planner.top() <= self.planner.low
            }
            None => false,
        }
    }

    /// Seeks no period below `low` from now on.
    pub fn raise(&mut self, low: u32) {
        self.low = self.low.max(low);
    }

    /// Goes on from a timetable that was found elsewhere, where it is better than the best.
    pub fn take(&mut self, found: &Found) -> Result<(), AllocError> {
        if let Some(best) = &self.best {
            if best.period <= found.period {
                return Ok(());
            }
        }
        self.best = Some(found.copied(self.alloc)?);
        let whole = self.line.degree();
        for _planner in 0..4 {
            if self.degree() == whole {
                break;
            }
            self.next_planner()?;
        }
        self.adopt_best()
    }

    /// Hunts until so many units of work are spent, and answers how many it spent: a search that has begun is
    /// brought to its end, which takes at most 4,000 units for each pair of moves.
    pub fn turn(&mut self, work: u64) -> Result<u64, AllocError> {
        let mut spent = 0u64;
        for _search in 0..work {
            if spent >= work || self.is_done() {
                break;
            }
            if self.left == 0 {
                self.next_planner()?;
            }
            let units = self.search()?;
            spent = spent.wrapping_add(units);
            self.left = self.left.saturating_sub(units);
            self.note()?;
        }
        Ok(spent)
    }

    // The degree of the planner whose turn it is.
    fn degree(&self) -> u32 {
        (self.planner.seeker.course.degree & 7) as u32
    }

    // One search; how much work it was.
    fn search(&mut self) -> Result<u64, AllocError> {
        let least = least_part(self.low, self.degree(), self.line.degree());
        self.planner.raise(least);
        let before = self.planner.seeker.work;
        let moves = self.planner.seeker.course.moves as u64;
        let most = moves.wrapping_mul(moves).wrapping_mul(4_000);
        self.planner.turn(before.wrapping_add(most))?;
        if self.planner.top() <= self.planner.low {
            self.left = 0;
        }
        Ok(self.planner.seeker.work.wrapping_sub(before))
    }

    // Notes the planner's best, repeated as often as the line's degree asks.
    fn note(&mut self) -> Result<(), AllocError> {
        let times = self.line.degree() / self.degree().max(1);
        let Some(plan) = &self.planner.best else {
            return Ok(());
        };
        let period = narrow(plan.period.wrapping_mul(i64::from(times))).unsigned_abs();
        let shorter = match &self.best {
            Some(found) => period < found.period,
            None => period <= self.line.max_period(),
        };
        if shorter {
            let whole = plan.repeated(self.alloc, times)?;
            self.best = Some(self.found(&whole, period)?);
        }
        Ok(())
    }

    fn found(&self, plan: &Plan, period: u32) -> Result<Found, AllocError> {
        let mut hoists = Vec::new(self.alloc);
        for hoist in &plan.hoists {
            hoists.push(u32::from(*hoist))?;
        }
        let mut tanks = Vec::new(self.alloc);
        for visit in 0..plan.choices.len() {
            tanks.push(
                self.planner
                    .seeker
                    .course
                    .tank(plan.choices.as_slice(), visit),
            )?;
        }
        let ticks = Vec::from_slice(self.alloc, plan.ticks.as_slice())?;
        Ok(Found {
            period,
            ticks,
            hoists,
            tanks,
        })
    }

    // The next planner's turn: that of the next degree that divides the line's, or of degree 1 again for a longer one.
    fn next_planner(&mut self) -> Result<(), AllocError> {
        let degree = self.degree();
        let whole = self.line.degree();
        if degree == whole {
            self.share = self.share.wrapping_add(self.share / 2);
        }
        self.left = self.share;
        let next = if degree == whole {
            1
        } else if degree == 1 && whole == 4 {
            2
        } else {
            whole
        };
        if next == degree {
            return Ok(());
        }
        let times = next / degree.max(1);
        let plan = if times > 1 {
            self.planner.hand_on(times)?
        } else {
            None
        };
        let hope = self.planner.hope.wrapping_mul(i64::from(times));
        self.change_planner(next)?;
        self.planner.hope = self.planner.hope.max(hope);
        match plan {
            Some(plan) => self.planner.go_from(&plan),
            None => Ok(()),
        }
    }

    // Makes the planner of a degree the one whose turn it is; the planners wait in the order of their turns.
    fn change_planner(&mut self, degree: u32) -> Result<(), AllocError> {
        let is_first = match self.waiting.as_slice().get(0) {
            Some(planner) => planner.seeker.course.degree == degree as usize,
            None => false,
        };
        let next = if is_first && !self.waiting.is_empty() {
            self.waiting.remove(0)
        } else {
            planner_of(self.alloc, &self.line, degree, self.low, self.seed)?
        };
        let old = mem::replace(&mut self.planner, next);
        self.waiting.push(old)?;
        Ok(())
    }

    fn adopt_best(&mut self) -> Result<(), AllocError> {
        let Some(found) = &self.best else {
            return Ok(());
        };
        let mut hoists = Vec::new(self.alloc);
        for hoist in &found.hoists {
            hoists.push((*hoist & 7) as u8)?;
        }
        let course = &self.planner.seeker.course;
        let plan = Plan {
            period: i64::from(found.period),
            ticks: Vec::from_slice(self.alloc, found.ticks.as_slice())?,
            hoists,
            choices: course.choices_of(self.alloc, found.tanks.as_slice())?,
        };
        self.planner.adopt(&plan)
    }
}

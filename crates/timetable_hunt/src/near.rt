//! Searches near a timetable: some moves are free, the others keep their hoists and their orders.

use crate::dive::Dive;
use crate::lists::{at, natural, put, rest};
use crate::masks::{only, with_neighbours};
use crate::plan::Plan;
use crate::planner::Planner;
use std::alloc::AllocError;

impl Planner {
    /// Keeps the orders of a timetable but those of some moves, and seeks another period; whether one was found.
    pub(crate) fn near(
        &mut self,
        plan: &Plan,
        period: i64,
        quota: u64,
    ) -> Result<bool, AllocError> {
        let alloc = self.seeker.alloc;
        let mut free = vec![in alloc; false; self.seeker.course.moves]?;
        self.take_detour(plan, &mut free)?;
        let mut masks = self.own_masks(plan)?;
        let orders = self.seeker.orders(plan, masks.as_slice())?;
        self.set_free(plan, &mut free)?;
        let opened = self.opened(plan)?;
        for number in 0..masks.len() {
            if at(&free, number, false) {
                put(&mut masks, number, at(&opened, number, 0));
            }
        }
        self.set_guide(plan, orders.as_slice())?;
        let end = self.search_free(
            period,
            orders.as_slice(),
            &mut free,
            &mut masks,
            opened.as_slice(),
            quota,
        )?;
        match end {
            Some(Dive::Found(place)) => self.take(place, period),
            Some(Dive::Empty) => {
                self.size = self.size.wrapping_add(1).min(48);
                Ok(false)
            }
            Some(Dive::Spent) => {
                if self.seeker.chance.once_in(3) {
                    self.size = self.size.saturating_sub(1).max(4);
                }
                Ok(false)
            }
            None => Ok(false),
        }
    }

    fn set_guide(&mut self, plan: &Plan, orders: &[i32]) -> Result<(), AllocError> {
        self.seeker.guide_orders.clear();
        self.seeker.guide_hoists.clear();
        if self.seeker.chance.once_in(2) {
            self.seeker.guide_orders.extend_from_slice(orders)?;
            self.seeker
                .guide_hoists
                .extend_from_slice(plan.hoists.as_slice())?;
        }
        Ok(())
    }

    // Goes the timetable's route, or once in two times one near it; the moves at changed tanks are free.
    fn take_detour(&mut self, plan: &Plan, free: &mut [bool]) -> Result<(), AllocError> {
        if self.seeker.course.single {
            return Ok(());
        }
        let mut choices = Vec::from_slice(self.seeker.alloc, plan.choices.as_slice())?;
        if self.seeker.chance.once_in(2) {
            self.change_some(&mut choices)?;
        }
        self.seeker.reroute(choices.as_slice())?;
        for number in 0..self.seeker.course.moves {
            let visit = self.seeker.course.visit_before(number);
            if differ(plan, &choices, visit) || differ(plan, &choices, visit.wrapping_add(1)) {
                put(free, number, true);
            }
        }
        Ok(())
    }

    // Changes the tanks of one or two visits, or of their stages, which the carriers then use in turn.
    fn change_some(&mut self, choices: &mut [u8]) -> Result<(), AllocError> {
        let mut wide = Vec::new(self.seeker.alloc);
        for visit in 0..choices.len() {
            if self.seeker.course.choice_count(visit) > 1 {
                wide.push(visit)?;
            }
        }
        let all = self.seeker.chance.once_in(3);
        for _time in 0..self.seeker.chance.below(2).wrapping_add(1) {
            let visit = at(&wide, self.seeker.chance.below(wide.len()), 0);
            let count = self.seeker.course.choice_count(visit);
            let shift = self
                .seeker
                .chance
                .below(count.saturating_sub(1))
                .wrapping_add(1);
            if all {
                self.change_stage(choices, visit, shift);
            } else {
                let old = at(choices, visit, 0) as usize;
                put(choices, visit, chosen(old, shift, count));
            }
        }
        Ok(())
    }

    // Gives the carriers the tanks of a stage in turn.
    fn change_stage(&self, choices: &mut [u8], visit: usize, shift: usize) {
        let stages = self.seeker.course.steps.wrapping_add(1).max(1);
        let count = self.seeker.course.choice_count(visit);
        for carrier in 0..self.seeker.course.degree {
            let other = carrier.wrapping_mul(stages).wrapping_add(visit % stages);
            put(choices, other, chosen(carrier, shift, count));
        }
    }

    // The hoists that each move may have where it's free: any, its own and the neighbours, or its own alone.
    fn opened(&mut self, plan: &Plan) -> Result<Vec<u8>, AllocError> {
        let one = self.seeker.course.degree == 1;
        let mode = match self.seeker.chance.below(8) {
            0 => 0,
            1 => if one { 0 } else { 1 },
            _ => if one { 1 } else { 2 },
        };
        let mut opened = Vec::new(self.seeker.alloc);
        for number in 0..self.seeker.course.moves {
            let own = only(at(&plan.hoists, number, 0) as usize);
            let reach = at(&self.seeker.course.reach, number, 0);
            let mask = reach
                & match mode {
                    0 => 255,
                    1 => with_neighbours(own),
                    _ => own,
                };
            opened.push(if mask == 0 { reach } else { mask })?;
        }
        Ok(opened)
    }

    // Frees a share of the moves, in one of four ways.
    fn set_free(&mut self, plan: &Plan, free: &mut [bool]) -> Result<(), AllocError> {
        let moves = self.seeker.course.moves;
        let count = (moves.wrapping_mul(self.size) / 64).max(2);
        match self.seeker.chance.below(4) {
            0 => {
                self.free_steps(free, count);
                Ok(())
            }
            1 => self.free_window(plan, free, count),
            2 => self.free_about(plan, free, count),
            _ => {
                for _time in 0..count {
                    let number = self.seeker.chance.below(moves);
                    put(free, number, true);
                }
                Ok(())
            }
        }
    }

    // Steps next to one another, of all carriers.
    fn free_steps(&mut self, free: &mut [bool], count: usize) {
        let steps = self.seeker.course.steps.max(1);
        let first = self.seeker.chance.below(steps);
        let length = (count / self.seeker.course.degree.max(1)).max(1);
        for number in 0..free.len() {
            let step = (number % steps).wrapping_add(steps).wrapping_sub(first) % steps;
            if step < length {
                free[number] = true;
            }
        }
    }

    // A window of time.
    fn free_window(
        &mut self,
        plan: &Plan,
        free: &mut [bool],
        count: usize,
    ) -> Result<(), AllocError> {
        let from = (self.seeker.chance.below(natural(plan.period)) & 0xffff) as i64;
        let mut keys = Vec::new(self.seeker.alloc);
        for number in 0..free.len() {
            let tick = at(&plan.ticks, number, 0);
            keys.push(key(rest(tick.wrapping_sub(from), plan.period), number))?;
        }
        free_first(keys, free, count)
    }

    // Moves near one in place and time.
    fn free_about(
        &mut self,
        plan: &Plan,
        free: &mut [bool],
        count: usize,
    ) -> Result<(), AllocError> {
        let centre = self.seeker.chance.below(free.len());
        let mut keys = Vec::new(self.seeker.alloc);
        for number in 0..free.len() {
            keys.push(key(self.distance(plan, centre, number), number))?;
        }
        free_first(keys, free, count)
    }

    fn distance(&self, plan: &Plan, a: usize, b: usize) -> i64 {
        let later = at(&plan.ticks, b, 0).wrapping_sub(at(&plan.ticks, a, 0));
        let after = rest(later, plan.period);
        let (first, second) = (
            self.seeker.course.places(a).0,
            self.seeker.course.places(b).0,
        );
        let way = first.max(second).wrapping_sub(first.min(second));
        after
            .min(plan.period.wrapping_sub(after))
            .wrapping_add(way.wrapping_mul(2))
    }
}

// A distance, with the move in the last eight bits.
fn key(distance: i64, number: usize) -> u64 {
    (natural(distance) as u64).wrapping_mul(256) | number as u64 & 255
}

// Frees the moves of the least keys.
fn free_first(keys: Vec<u64>, free: &mut [bool], count: usize) -> Result<(), AllocError> {
    let mut keys = keys;
    keys.sort()?;
    for i in 0..count.min(keys.len()) {
        put(free, (at(&keys, i, 0) & 255) as usize, true);
    }
    Ok(())
}

fn differ(plan: &Plan, choices: &[u8], visit: usize) -> bool {
    at(&plan.choices, visit, 0) != at(choices, visit, 0)
}

// The tank that is so many further than another one among `count`.
fn chosen(old: usize, shift: usize, count: usize) -> u8 {
    (old.wrapping_add(shift) % count.max(1) & 255) as u8
}

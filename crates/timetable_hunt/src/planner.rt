//! Shorter and shorter periods: searches of many states, most of them near the timetable where it stands.

use crate::dive::Dive;
use crate::lists::{at, natural, put};
use crate::masks::only;
use crate::place::Place;
use crate::plan::Plan;
use crate::seeker::Seeker;
use crate::start::{ANY, Start};
use hoist_base::Line;
use std::alloc::{AllocError, Global};

/// The periods that are tried first, in quarters of the least possible one.
const LADDER: [i64; 8] = [5, 6, 8, 11, 16, 24, 40, 80];

/// The searches on one line, and where they stand.
#[derive(Drop)]
pub(crate) struct Planner {
    pub(crate) seeker: Seeker,
    /// No period below it is sought.
    pub(crate) low: i64,
    /// No period above it is sought.
    high: i64,
    /// A period that the searches hope for, at least `low`.
    pub(crate) hope: i64,
    /// The period of the last timetable that was handed on.
    handed: i64,
    pub(crate) best: Option<Plan>,
    /// The timetable from which the searches go.
    current: Option<Plan>,
    /// Searches since the last shorter period.
    idle: u64,
    /// How many moves are freed, in 64ths.
    pub(crate) size: usize,
    /// How far below the current period is aimed, in 1024ths of what is left.
    step: i64,
    /// The ways that a search may try.
    quota: u64,
    /// The idle searches after which it begins elsewhere.
    patience: u64,
    rung: usize,
    begun: bool,
}

impl Planner {
    /// The searches for periods from `low` to `high`.
    pub(crate) fn new(
        alloc: Global,
        line: Line,
        low: i64,
        high: i64,
        seed: u64,
    ) -> Result<Planner, AllocError> {
        let seeker = Seeker::new(alloc, line, seed)?;
        let quota = if seeker.course.degree == 1 { 200 } else { 60 };
        let mut planner = Planner {
            seeker,
            low,
            high,
            hope: low,
            handed: i64::MAX,
            best: None,
            current: None,
            idle: 0,
            size: 12,
            step: 64,
            quota,
            patience: 200,
            rung: 0,
            begun: false,
        };
        planner.raise_low()?;
        Ok(planner)
    }

    // The least period that the constraints of the route alone allow; it's a bound for all routes where there is one.
    fn raise_low(&mut self) -> Result<(), AllocError> {
        if let Some(plan) = self.seeker.press(&[], &[], self.low, self.high)? {
            self.hope = plan.period;
            if self.seeker.course.single {
                self.low = plan.period;
            }
        }
        Ok(())
    }

    /// One more than the greatest period that is still of use.
    pub(crate) fn top(&self) -> i64 {
        match &self.best {
            Some(plan) => plan.period,
            None => self.high.wrapping_add(1),
        }
    }

    /// Seeks no period below `low` from now on.
    pub(crate) fn raise(&mut self, low: i64) {
        self.low = self.low.max(low);
        self.hope = self.hope.max(low);
    }

    /// The best, repeated, where it was found since it was asked for last.
    pub(crate) fn hand_on(&mut self, times: u32) -> Result<Option<Plan>, AllocError> {
        let top = self.top();
        if top >= self.handed {
            return Ok(None);
        }
        self.handed = top;
        match &self.best {
            Some(plan) => Ok(Some(plan.repeated(self.seeker.alloc, times)?)),
            None => Ok(None),
        }
    }

    /// Goes on from a timetable, which may be longer than the best.
    pub(crate) fn go_from(&mut self, plan: &Plan) -> Result<(), AllocError> {
        if plan.period < self.top() {
            return self.adopt(plan);
        }
        self.current = Some(plan.copied(self.seeker.alloc)?);
        self.idle = 0;
        self.begun = true;
        Ok(())
    }

    /// Goes on from a timetable, which becomes the best.
    pub(crate) fn adopt(&mut self, plan: &Plan) -> Result<(), AllocError> {
        let alloc = self.seeker.alloc;
        self.seeker.reroute(plan.choices.as_slice())?;
        self.best = Some(plan.copied(alloc)?);
        self.current = Some(plan.copied(alloc)?);
        self.idle = 0;
        self.begun = true;
        Ok(())
    }

    /// One search; it breaks off where the work comes to `limit`.
    pub(crate) fn turn(&mut self, limit: u64) -> Result<(), AllocError> {
        self.seeker.limit = limit;
        let moves = self.seeker.course.moves;
        self.seeker.spend(moves.wrapping_mul(16).wrapping_add(200));
        if !self.begun {
            self.begun = true;
            return self.one_by_one();
        }
        match self.current.take() {
            None => self.climb_ladder(),
            Some(plan) => self.go_on(plan),
        }
    }

    // The timetable in which one carrier after another goes through the line.
    fn one_by_one(&mut self) -> Result<(), AllocError> {
        let alloc = self.seeker.alloc;
        let reach = Vec::from_slice(alloc, self.seeker.course.reach.as_slice())?;
        let given = vec![in alloc; 0; self.seeker.course.pairs.len()]?;
        self.seeker.guide_orders = Vec::from_slice(alloc, given.as_slice())?;
        self.seeker.guide_hoists.clear();
        let found = self.search(self.high, reach.as_slice(), given.as_slice(), 2_000)?;
        self.seeker.guide_orders.clear();
        if found {
            self.current = None;
        }
        Ok(())
    }

    // Searches below a state, and takes what is found.
    fn search(
        &mut self,
        period: i64,
        masks: &[u8],
        given: &[i32],
        quota: u64,
    ) -> Result<bool, AllocError> {
        match self.seeker.start(period, masks, given)? {
            Start::Ready(place) => self.search_below(place, period, quota),
            _ => Ok(false),
        }
    }

    fn search_below(&mut self, place: Place, period: i64, quota: u64) -> Result<bool, AllocError> {
        match self.seeker.dive(place, quota)? {
            Dive::Found(found) => self.take(found, period),
            _ => Ok(false),
        }
    }

    /// Takes the timetable of the least period with the orders and hoists that were found; whether it's shorter than
    /// the current one.
    pub(crate) fn take(&mut self, place: Place, period: i64) -> Result<bool, AllocError> {
        let alloc = self.seeker.alloc;
        let mut orders = Vec::new(alloc);
        for order in &place.orders {
            orders.push(order.low)?;
        }
        let pressed = self.seeker.press(
            place.masks.as_slice(),
            orders.as_slice(),
            self.low,
            period,
        )?;
        self.seeker.spare.push(place)?;
        let Some(plan) = pressed else {
            return Ok(false);
        };
        if plan.period < self.top() {
            self.best = Some(plan.copied(alloc)?);
        }
        self.current = Some(plan);
        Ok(true)
    }

    // Without a timetable to go on from: periods further and further apart.
    fn climb_ladder(&mut self) -> Result<(), AllocError> {
        let base = match &self.best {
            Some(plan) => plan.period,
            None => self.hope,
        };
        let quarters = at(&LADDER, self.rung % 8, 8);
        self.rung = self.rung.wrapping_add(1);
        let wished = base.wrapping_mul(quarters) / 4;
        let period = if self.rung % 8 == 0 {
            self.high
        } else {
            wished.min(self.high)
        };
        self.change_tanks()?;
        let masks = match self.seeker.chance.below(4) {
            0 => Vec::from_slice(self.seeker.alloc, self.seeker.course.reach.as_slice())?,
            1 => self.zones(false)?,
            _ => self.zones(true)?,
        };
        self.seeker.guide_orders.clear();
        self.seeker.guide_hoists.clear();
        self.search(period, masks.as_slice(), &[], self.quota)?;
        Ok(())
    }

    // Another route by chance, once in four times.
    fn change_tanks(&mut self) -> Result<(), AllocError> {
        if self.seeker.course.single || !self.seeker.chance.once_in(4) {
            return Ok(());
        }
        let mut choices = Vec::new(self.seeker.alloc);
        for visit in 0..self.seeker.course.visits {
            let count = self.seeker.course.choice_count(visit);
            choices.push((self.seeker.chance.below(count) & 255) as u8)?;
        }
        self.seeker.reroute(choices.as_slice())
    }

    // From a timetable to a shorter one, or to another one of about its period.
    fn go_on(&mut self, plan: Plan) -> Result<(), AllocError> {
        let mut gap = plan.period.wrapping_sub(self.hope);
        if gap <= 0 {
            gap = plan.period.wrapping_sub(self.low);
        }
        if gap <= 0 {
            self.current = Some(plan);
            return Ok(());
        }
        self.idle = self.idle.wrapping_add(1);
        if self.idle > self.patience {
            return self.begin_elsewhere();
        }
        let quota = self
            .quota
            .wrapping_add(self.quota.wrapping_mul(self.idle) / 64);
        let side = self.seeker.chance.once_in(4);
        let period = plan.period.wrapping_add(self.aim(gap, side));
        let found = if self.seeker.chance.once_in(16) {
            self.follow(&plan, period, quota)?
        } else {
            self.near(&plan, period, quota)?
        };
        let shorter = match &self.current {
            Some(other) => found && other.period < plan.period,
            None => false,
        };
        self.adapt(shorter, side);
        if !found {
            self.current = Some(plan);
        }
        Ok(())
    }

    // How far from the current period the next search aims; after long in vain at times anywhere, since with greatest
    // dwells there may be no timetable of the periods between.
    fn aim(&mut self, gap: i64, side: bool) -> i64 {
        if side {
            let room = natural(gap / 64);
            return (self.seeker.chance.below(room.wrapping_add(1)) & 0xffff) as i64;
        }
        let step = if self.idle > 100 && self.seeker.chance.once_in(8) {
            1024
        } else {
            self.step
        };
        let back = (gap.wrapping_mul(step) / 1024).max(1).min(gap);
        let less = (self.seeker.chance.below(natural(back)) & 0xffff) as i64;
        less.wrapping_neg().wrapping_sub(1)
    }

    fn adapt(&mut self, shorter: bool, side: bool) {
        if shorter {
            self.idle = 0;
            self.step = self.step.wrapping_mul(2).min(768);
        } else if !side {
            let less = self.step.wrapping_sub(self.step / 16).wrapping_sub(1);
            self.step = less.max(8);
        }
    }

    // Another descent, from elsewhere or from the best.
    fn begin_elsewhere(&mut self) -> Result<(), AllocError> {
        self.patience = self.patience.wrapping_add(self.patience / 8);
        self.idle = 0;
        self.step = 64;
        self.size = 12;
        self.rung = 0;
        self.current = None;
        if self.seeker.course.degree > 1 || self.seeker.chance.once_in(4) {
            if let Some(best) = &self.best {
                self.current = Some(best.copied(self.seeker.alloc)?);
            }
        }
        self.seeker.cool()
    }

    // All orders are open, those of a timetable are tried first.
    fn follow(&mut self, plan: &Plan, period: i64, quota: u64) -> Result<bool, AllocError> {
        let alloc = self.seeker.alloc;
        self.seeker.reroute(plan.choices.as_slice())?;
        let own = self.own_masks(plan)?;
        self.seeker.guide_orders = self.seeker.orders(plan, own.as_slice())?;
        self.seeker.guide_hoists = Vec::from_slice(alloc, plan.hoists.as_slice())?;
        if self.seeker.chance.once_in(2) {
            let reach = Vec::from_slice(alloc, self.seeker.course.reach.as_slice())?;
            return self.search(period, reach.as_slice(), &[], quota);
        }
        self.search(period, own.as_slice(), &[], quota)
    }

    /// The hoists of a timetable, as masks.
    pub(crate) fn own_masks(&self, plan: &Plan) -> Result<Vec<u8>, AllocError> {
        let mut masks = Vec::new(self.seeker.alloc);
        for hoist in &plan.hoists {
            masks.push(only(*hoist as usize))?;
        }
        Ok(masks)
    }

    /// Searches where the orders between moves that aren't free are kept; more moves are freed where these can't be.
    pub(crate) fn search_free(
        &mut self,
        period: i64,
        orders: &[i32],
        free: &mut [bool],
        masks: &mut [u8],
        opened: &[u8],
        quota: u64,
    ) -> Result<Option<Dive>, AllocError> {
        let moves = self.seeker.course.moves;
        for _more in 0..moves.wrapping_add(1) {
            let given = self.given(orders, free)?;
            match self.seeker.start(period, masks, given.as_slice())? {
                Start::Ready(place) => return Ok(Some(self.seeker.dive(place, quota)?)),
                Start::Stuck => return Ok(None),
                Start::Loop(pair) => {
                    if free.iter().filter(|f| **f).count() > moves.wrapping_mul(3) / 4 {
                        return Ok(None);
                    }
                    let pair = self.seeker.course.pair(pair);
                    let number = if self.seeker.chance.once_in(2) {
                        pair.a
                    } else {
                        pair.b
                    };
                    put(free, number as usize, true);
                    let open = at(opened, number as usize, 0);
                    put(masks, number as usize, open);
                }
            }
        }
        Ok(None)
    }

    // The orders between moves that aren't free.
    fn given(&self, orders: &[i32], free: &[bool]) -> Result<Vec<i32>, AllocError> {
        let mut given = Vec::new(self.seeker.alloc);
        for number in 0..orders.len() {
            let pair = self.seeker.course.pair(number);
            let is_free = at(free, pair.a as usize, true) || at(free, pair.b as usize, true);
            given.push(if is_free {
                ANY
            } else {
                at(orders, number, ANY)
            })?;
        }
        Ok(given)
    }
}

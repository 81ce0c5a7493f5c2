//! Where a search begins, and where it ends.

use crate::lists::{FAR, at, cell, narrow, put};
use crate::masks::lowest;
use crate::place::{ALL, NONE, Orders, Place};
use crate::plan::Plan;
use crate::rides::Apart;
use crate::seeker::Seeker;
use crate::walks::Walk;
use longest_path::Arc;
use std::alloc::AllocError;

/// Stands for an order that isn't given.
pub(crate) const ANY: i32 = i32::MIN;

/// Stands for a constraint that says no order.
const NO_PAIR: u32 = u32::MAX;

/// A state to search below, or why there is none.
#[derive(Drop)]
pub(crate) enum Start {
    Ready(Place),
    /// No orders help.
    Stuck,
    /// The given order of this pair stands on a closed walk that gains.
    Loop(usize),
}

impl Seeker {
    /// The state at a period with these hoists, where the orders that are given hold and the others are open.
    pub(crate) fn start(
        &mut self,
        period: i64,
        masks: &[u8],
        given: &[i32],
    ) -> Result<Start, AllocError> {
        if masks.contains(&0) {
            return Ok(Start::Stuck);
        }
        let pairs = self.course.pairs.len();
        self.spend(pairs.wrapping_mul(2));
        self.period = narrow(period).max(1);
        self.set_links(masks, given)?;
        if !given.is_empty() {
            let (walk, passes) = self.walks.walk(period)?;
            let links = self.walks.links.len() as u64;
            self.work = self.work.wrapping_add(links.wrapping_mul(passes));
            if let Walk::Gains(_, _) = walk {
                return Ok(self.blamed());
            }
        }
        let mut place = self.room();
        self.fill(&mut place, masks, given)?;
        if self.close(&mut place.table) {
            return Ok(Start::Ready(place));
        }
        self.spare.push(place)?;
        Ok(Start::Stuck)
    }

    // One of the pairs on the closed walk that gains.
    fn blamed(&mut self) -> Start {
        let count = self.walks.pairs.len();
        if count == 0 {
            return Start::Stuck;
        }
        let i = self.chance.below(count);
        Start::Loop(at(&self.walks.pairs, i, 0) as usize)
    }

    // The constraints of the route, and those of the orders that are given.
    fn set_links(&mut self, masks: &[u8], given: &[i32]) -> Result<(), AllocError> {
        self.walks.links.clear();
        for i in 0..self.course.arcs.len() {
            let Some(arc) = self.course.arcs.get(i).copied() else {
                break;
            };
            self.walks.add(arc, NO_PAIR)?;
        }
        for number in 0..given.len() {
            let order = at(given, number, ANY);
            let weights = self.weight(masks, number);
            if order != ANY && !weights.is_free() {
                self.add_order(number, weights, order)?;
            }
        }
        Ok(())
    }

    fn add_order(&mut self, number: usize, weights: Apart, order: i32) -> Result<(), AllocError> {
        let pair = self.course.pair(number);
        let k = i64::from(order);
        let arc = Arc {
            from: u32::from(pair.first.from),
            to: u32::from(pair.first.to),
            w: i64::from(weights.after),
            q: k.wrapping_neg(),
        };
        self.walks.add(arc, (number & 0xffff) as u32)?;
        let arc = Arc {
            from: u32::from(pair.second.from),
            to: u32::from(pair.second.to),
            w: i64::from(weights.before),
            q: k.wrapping_sub(1),
        };
        self.walks.add(arc, (number & 0xffff) as u32)
    }

    fn fill(&mut self, place: &mut Place, masks: &[u8], given: &[i32]) -> Result<(), AllocError> {
        let moves = self.course.moves;
        place.table.clear();
        place.table.resize(moves.wrapping_mul(moves), FAR)?;
        for i in 0..moves {
            put(&mut place.table, cell(moves, i, i), 0);
        }
        for i in 0..self.walks.links.len() {
            let arc = self.walks.links[i].arc;
            let asked = arc
                .w
                .wrapping_add(arc.q.wrapping_mul(i64::from(self.period)));
            let asked = narrow(asked);
            let place_of = cell(moves, arc.from as usize, arc.to as usize);
            let old = at(&place.table, place_of, i32::MAX);
            put(&mut place.table, place_of, asked.max(old));
        }
        place.masks.clear();
        place.masks.extend_from_slice(masks)?;
        self.fill_pairs(place, given)
    }

    fn fill_pairs(&mut self, place: &mut Place, given: &[i32]) -> Result<(), AllocError> {
        place.weights.clear();
        place.orders.clear();
        place.open.clear();
        for number in 0..self.course.pairs.len() {
            let weights = self.weight(&place.masks, number);
            let sure = self.is_sure(&place.masks, number);
            let order = at(given, number, ANY);
            place.weights.push(weights)?;
            if sure && order != ANY && !weights.is_free() {
                place.orders.push(Orders {
                    low: order,
                    high: order,
                })?;
            } else if weights.is_free() && sure {
                place.orders.push(NONE)?;
            } else {
                place.orders.push(ALL)?;
                place.open.push((number & 0xffff) as u32)?;
            }
        }
        Ok(())
    }

    /// The orders of a timetable, by pair; those of pairs that forbid nothing are left out.
    pub(crate) fn orders(&mut self, plan: &Plan, masks: &[u8]) -> Result<Vec<i32>, AllocError> {
        let mut orders = Vec::new(self.alloc);
        for number in 0..self.course.pairs.len() {
            let weights = self.weight(masks, number);
            let ends = self.course.pair(number).second;
            let from = at(&plan.ticks, ends.from as usize, 0);
            let to = at(&plan.ticks, ends.to as usize, 0);
            let room = to
                .wrapping_sub(from)
                .wrapping_sub(i64::from(weights.before));
            orders.push(if weights.is_free() {
                ANY
            } else {
                order_of(room, plan.period)
            })?;
        }
        Ok(orders)
    }

    /// The timetable of the least period from `low` to `high` with these hoists and orders.
    pub(crate) fn press(
        &mut self,
        masks: &[u8],
        orders: &[i32],
        low: i64,
        high: i64,
    ) -> Result<Option<Plan>, AllocError> {
        self.set_links(masks, orders)?;
        let mut period = low;
        for _step in 0..u64::MAX {
            if period > high {
                break;
            }
            let (walk, passes) = self.walks.walk(period)?;
            let links = self.walks.links.len() as u64;
            self.work = self.work.wrapping_add(links.wrapping_mul(passes));
            match walk {
                Walk::Met => return Ok(Some(self.plan(masks, period)?)),
                Walk::Gains(gain, slope) => {
                    if slope >= 0 || gain <= 0 {
                        break;
                    }
                    period = period.wrapping_add(more(gain, slope.wrapping_neg()));
                }
            }
        }
        Ok(None)
    }

    fn plan(&mut self, masks: &[u8], period: i64) -> Result<Plan, AllocError> {
        let mut hoists = Vec::new(self.alloc);
        for mask in masks {
            hoists.push((lowest(*mask) & 7) as u8)?;
        }
        Ok(Plan {
            period,
            ticks: Vec::from_slice(self.alloc, self.walks.ticks.as_slice())?,
            hoists,
            choices: Vec::from_slice(self.alloc, self.course.choices.as_slice())?,
        })
    }
}

// The order of a pair whose second end comes so much later than it has to in order 1.
fn order_of(later: i64, period: i64) -> i32 {
    if period <= 0 {
        return 0;
    }
    narrow(later.div_euclid(period).wrapping_add(1))
}

// a / b rounded up, at least 1.
fn more(a: i64, b: i64) -> i64 {
    if b <= 0 {
        return 1;
    }
    a.wrapping_add(b).wrapping_sub(1).div_euclid(b).max(1)
}

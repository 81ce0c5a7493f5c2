//! The search for a timetable of one period on one route.

use crate::chance::Chance;
use crate::course::{Course, Ends, pair_number};
use crate::lists::{FAR, at, cell, part, put, raise_columns, raise_part};
use crate::masks::{has, is_one, lowest};
use crate::place::{ALL, Place};
use crate::rides::Apart;
use crate::walks::Walks;
use hoist_base::Line;
use std::alloc::{AllocError, Global};

/// The heat of what hasn't failed yet.
const COOL: u64 = 16;

/// A question that was asked: an order at or below `order`, or above it, of a pair; or, with a number from the count of
/// the pairs on, whether a move has the hoist `order`. `child` is the answer.
#[derive(Clone, Copy)]
pub(crate) struct Question {
    pub(crate) number: usize,
    pub(crate) order: i32,
    pub(crate) child: u8,
}

/// A state to come back to, with the answer that is left.
#[derive(Drop)]
pub(crate) struct Branch {
    pub(crate) place: Place,
    pub(crate) question: Question,
}

/// The search, its room, and what it learnt.
#[derive(Drop)]
pub(crate) struct Seeker {
    pub(crate) alloc: Global,
    pub(crate) course: Course,
    pub(crate) chance: Chance,
    pub(crate) walks: Walks,
    /// The period that is sought, in ticks.
    pub(crate) period: i32,
    /// How often pairs, and then moves, were at the end of a way, the last times counting most.
    heat: Vec<u64>,
    warm: u64,
    /// Units of work so far, each of about four numbers.
    pub(crate) work: u64,
    /// The work at which a search breaks off.
    pub(crate) limit: u64,
    /// Ways that came to an end.
    pub(crate) fails: u64,
    pub(crate) stamp: u64,
    /// The last change of each move's row of the table, or of its hoists.
    pub(crate) stamps: Vec<u64>,
    row: Vec<i32>,
    columns: Vec<u32>,
    pub(crate) spare: Vec<Place>,
    pub(crate) stack: Vec<Branch>,
    /// The orders and hoists that are tried first; none where these are empty.
    pub(crate) guide_orders: Vec<i32>,
    pub(crate) guide_hoists: Vec<u8>,
}

impl Seeker {
    /// The search on the first route of a line.
    pub(crate) fn new(alloc: Global, line: Line, seed: u64) -> Result<Seeker, AllocError> {
        let course = Course::new(alloc, line)?;
        let moves = course.moves;
        let mut seeker = Seeker {
            alloc,
            course,
            chance: Chance::new(seed),
            walks: Walks::new(alloc, moves)?,
            period: 1,
            heat: Vec::new(alloc),
            warm: COOL,
            work: 0,
            limit: u64::MAX,
            fails: 0,
            stamp: 0,
            stamps: vec![in alloc; 0; moves]?,
            row: vec![in alloc; 0; moves]?,
            columns: vec![in alloc; 0; moves]?,
            spare: Vec::new(alloc),
            stack: Vec::new(alloc),
            guide_orders: Vec::new(alloc),
            guide_hoists: Vec::new(alloc),
        };
        seeker.cool()?;
        Ok(seeker)
    }

    /// Goes another route.
    pub(crate) fn reroute(&mut self, choices: &[u8]) -> Result<(), AllocError> {
        if self.course.choices.as_slice() == choices {
            return Ok(());
        }
        self.course.reroute(choices)?;
        self.work = self.work.wrapping_add(self.course.pairs.len() as u64);
        self.cool()
    }

    /// Forgets what failed.
    pub(crate) fn cool(&mut self) -> Result<(), AllocError> {
        self.heat.clear();
        let count = self.course.pairs.len().wrapping_add(self.course.moves);
        self.heat.resize(count, COOL)?;
        self.warm = COOL;
        Ok(())
    }

    /// Notes that a pair or a move was at the end of a way.
    pub(crate) fn heat_up(&mut self, number: usize) {
        let heat = at(&self.heat, number, COOL);
        put(&mut self.heat, number, heat.wrapping_add(self.warm));
        self.warm = self.warm.wrapping_add(self.warm / 32);
        if self.warm > 1 << 40 {
            for heat in self.heat.iter_mut() {
                *heat = (*heat >> 30).max(1);
            }
            self.warm = (self.warm >> 30).max(COOL);
        }
    }

    /// How hot a pair or a move is, at least 1.
    #[inline]
    pub(crate) fn heat(&self, number: usize) -> u64 {
        at(&self.heat, number, COOL).max(1)
    }

    /// Counts work.
    #[inline]
    pub(crate) fn spend(&mut self, units: usize) {
        self.work = self.work.wrapping_add(units as u64);
    }

    /// What a pair forbids, whichever of the hoists in the masks are taken.
    pub(crate) fn weight(&self, masks: &[u8], number: usize) -> Apart {
        let pair = self.course.pair(number);
        if pair.tank {
            return pair.weights;
        }
        let (a, b) = (pair.a as usize, pair.b as usize);
        let (ma, mb) = (at(masks, a, 0), at(masks, b, 0));
        let hb = lowest(mb);
        let place = self.course.span_place(a, b, hb);
        let mut least = self.weight_from(place, ma);
        if is_one(mb) {
            return least;
        }
        for h in hb.wrapping_add(1)..self.course.hoists {
            if least.is_free() {
                break;
            }
            if has(mb, h) {
                let place = self.course.span_place(a, b, h);
                least = least.least(self.weight_from(place, ma));
            }
        }
        least
    }

    // What stands at a place, whichever of the first move's hoists is taken.
    #[inline]
    fn weight_from(&self, place: usize, mask: u8) -> Apart {
        let ha = lowest(mask);
        let mut least = self.course.span_at(place, ha);
        if is_one(mask) {
            return least;
        }
        for h in ha.wrapping_add(1)..self.course.hoists {
            if least.is_free() {
                break;
            }
            if has(mask, h) {
                least = least.least(self.course.span_at(place, h));
            }
        }
        least
    }

    /// Whether the hoists of a pair are settled.
    #[inline]
    pub(crate) fn is_sure(&self, masks: &[u8], number: usize) -> bool {
        let pair = self.course.pair(number);
        pair.tank || is_one(at(masks, pair.a as usize, 0)) && is_one(at(masks, pair.b as usize, 0))
    }

    /// The least ticks from the second of two ends to the first.
    #[inline]
    pub(crate) fn back(&self, place: &Place, ends: Ends) -> i32 {
        let row = cell(self.course.moves, ends.to as usize, 0);
        at(&place.table, row.wrapping_add(ends.from as usize), FAR)
    }

    /// Asks for at least `weight` ticks between the ends; false where no timetable is left.
    pub(crate) fn add(&mut self, table: &mut [i32], ends: Ends, weight: i32) -> bool {
        let moves = self.course.moves;
        let (from, to) = (ends.from as usize, ends.to as usize);
        if weight <= at(table, cell(moves, from, to), FAR) {
            return true;
        }
        if weight.wrapping_add(at(table, cell(moves, to, from), FAR)) > 0 {
            return false;
        }
        self.stamp = self.stamp.wrapping_add(1);
        let source = part(table, cell(moves, to, 0), moves);
        if self.row.len() == source.len() {
            self.row.copy_from_slice(source);
        }
        let count = self.set_columns(table, from, weight);
        self.spend(moves.wrapping_mul(moves.wrapping_add(count)) / 8);
        let few = count.wrapping_mul(6) < moves;
        for i in 0..moves {
            let begin = cell(moves, i, 0);
            let tick = at(table, begin.wrapping_add(from), FAR).wrapping_add(weight);
            if tick > at(table, begin.wrapping_add(to), FAR) {
                put(&mut self.stamps, i, self.stamp);
                if few {
                    raise_columns(table, begin, &self.row, first(&self.columns, count), tick);
                } else {
                    raise_part(table, begin, &self.row, tick);
                }
            }
        }
        true
    }

    // The columns in which a walk from `from` by a weight and then along the row is longer; no row rises in others.
    fn set_columns(&mut self, table: &[i32], from: usize, weight: i32) -> usize {
        let moves = self.course.moves;
        let begin = cell(moves, from, 0);
        let mut count = 0usize;
        for j in 0..moves {
            let tick = at(&self.row, j, FAR).wrapping_add(weight);
            if tick > at(table, begin.wrapping_add(j), FAR) {
                put(&mut self.columns, count, (j & 255) as u32);
                count = count.wrapping_add(1);
            }
        }
        count
    }

    /// Closes a table under walks; false where a closed walk gains.
    pub(crate) fn close(&mut self, table: &mut [i32]) -> bool {
        let moves = self.course.moves;
        self.spend(moves.wrapping_mul(moves).wrapping_mul(moves) / 4);
        for k in 0..moves {
            let source = part(table, cell(moves, k, 0), moves);
            if self.row.len() == source.len() {
                self.row.copy_from_slice(source);
            }
            if !through(table, moves, k, &self.row) {
                return false;
            }
        }
        true
    }

    /// Looks anew at all pairs of a move whose hoists changed.
    pub(crate) fn renew(&mut self, place: &mut Place, number: usize) {
        let moves = self.course.moves;
        for other in 0..moves {
            if other != number {
                let pair = pair_number(moves, number.min(other), number.max(other));
                let weight = self.weight(&place.masks, pair);
                put(&mut place.weights, pair, weight);
                put(&mut place.orders, pair, ALL);
            }
        }
        self.spend(moves.wrapping_mul(4));
        self.stamp = self.stamp.wrapping_add(1);
        put(&mut self.stamps, number, self.stamp);
    }
}

// The first places of a list.
#[inline]
fn first(list: &[u32], count: usize) -> &[u32] {
    &list[..count.min(list.len())]
}

// Raises each row to what a walk through move k brings; false where a closed walk gains.
fn through(table: &mut [i32], moves: usize, k: usize, row: &[i32]) -> bool {
    for i in 0..moves {
        let begin = cell(moves, i, 0);
        let tick = at(table, begin.wrapping_add(k), FAR);
        if tick > FAR / 2 && i != k {
            raise_part(table, begin, row, tick);
            if at(table, begin.wrapping_add(i), 0) > 0 {
                return false;
            }
        }
    }
    true
}

//! What follows from a decision.

use crate::course::Pair;
use crate::lists::{FAR, at, ceil, cell, floor, put};
use crate::masks::{has, is_one, lowest, without};
use crate::place::{ALL, NONE, Orders, Place};
use crate::rides::{Apart, FREE};
use crate::seeker::Seeker;

/// What became of a pair whose order was open.
#[derive(Clone, Copy)]
enum Fate {
    Open,
    Settled,
    Failed,
}

impl Seeker {
    /// Draws all consequences of what was stamped after `since`; false where no timetable is left. Hoists are taken
    /// away only where the orders have nothing more to say, since that costs more.
    pub(crate) fn spread(&mut self, place: &mut Place, since: u64) -> bool {
        let (mut ordered, mut thinned) = (since, since);
        for _round in 0..u64::MAX {
            let now = self.stamp;
            if !self.look_at_open(place, ordered) {
                return false;
            }
            ordered = now;
            if self.stamp == now {
                if !self.thin(place, thinned) {
                    return false;
                }
                if self.stamp == now {
                    return true;
                }
                thinned = now;
            }
        }
        false
    }

    fn look_at_open(&mut self, place: &mut Place, since: u64) -> bool {
        let count = place.open.len();
        self.spend(count);
        let mut kept = 0usize;
        for i in 0..count {
            let number = at(&place.open, i, 0);
            match self.look_at(place, number as usize, since) {
                Fate::Open => {
                    put(&mut place.open, kept, number);
                    kept = kept.wrapping_add(1);
                }
                Fate::Settled => {}
                Fate::Failed => return false,
            }
        }
        place.open.truncate(kept);
        true
    }

    // Whether a move's row or hoists changed after `since`.
    #[inline]
    fn is_new(&self, number: usize, since: u64) -> bool {
        at(&self.stamps, number, 0) > since
    }

    #[inline]
    fn look_at(&mut self, place: &mut Place, number: usize, since: u64) -> Fate {
        let pair = self.course.pair(number);
        if !self.is_new(pair.first.to as usize, since)
            && !self.is_new(pair.second.to as usize, since)
        {
            return Fate::Open;
        }
        self.spend(2);
        let sure = self.is_sure(&place.masks, number);
        let weights = at(&place.weights, number, FREE);
        if weights.is_free() {
            if !sure {
                return Fate::Open;
            }
            put(&mut place.orders, number, NONE);
            return Fate::Settled;
        }
        let orders = self.narrowed(place, number, weights);
        put(&mut place.orders, number, orders);
        let one = orders.low == orders.high;
        if orders.low > orders.high || one && !self.settle(place, pair, weights, orders.low) {
            self.heat_up(number);
            return Fate::Failed;
        }
        if one && sure {
            Fate::Settled
        } else {
            Fate::Open
        }
    }

    // The orders that the table leaves a pair.
    #[inline]
    fn narrowed(&self, place: &Place, number: usize, weights: Apart) -> Orders {
        let pair = self.course.pair(number);
        let least = self.back(place, pair.first).wrapping_add(weights.after);
        let again = self.back(place, pair.second);
        let most = self.period.wrapping_sub(again).wrapping_sub(weights.before);
        let mut orders = at(&place.orders, number, ALL);
        if orders.low <= ALL.low || least > orders.low.wrapping_mul(self.period) {
            orders.low = ceil(least, self.period);
        }
        if orders.high >= ALL.high || most < orders.high.wrapping_mul(self.period) {
            orders.high = floor(most, self.period);
        }
        orders
    }

    // Asks for order k of a pair; false where no timetable is left.
    fn settle(&mut self, place: &mut Place, pair: Pair, weights: Apart, k: i32) -> bool {
        let later = k.wrapping_mul(self.period);
        let after = weights.after.wrapping_sub(later);
        let before = weights.before.wrapping_add(later).wrapping_sub(self.period);
        self.add(&mut place.table, pair.first, after)
            && self.add(&mut place.table, pair.second, before)
    }

    // Takes away hoists with which a move and another one have no order; false where a move has no hoist left.
    fn thin(&mut self, place: &mut Place, since: u64) -> bool {
        for number in 0..self.course.moves {
            let old = at(&place.masks, number, 0);
            if !is_one(old) {
                let mask = self.thinned(place, number, since, old);
                if mask == 0 {
                    let heat = self.course.pairs.len().wrapping_add(number);
                    self.heat_up(heat);
                    return false;
                }
                if mask != old {
                    put(&mut place.masks, number, mask);
                    self.renew(place, number);
                }
            }
        }
        true
    }

    fn thinned(&mut self, place: &Place, number: usize, since: u64, old: u8) -> u8 {
        let new = self.is_new(number, since);
        let mut mask = old;
        for other in 0..self.course.moves {
            let others = at(&place.masks, other, 0);
            if other != number && is_one(others) && (new || self.is_new(other, since)) {
                mask = self.thinned_by(place, number, other, mask);
            }
        }
        mask
    }

    // The hoists of a mask with which a move and another one, whose hoist is settled, have an order.
    fn thinned_by(&mut self, place: &Place, number: usize, other: usize, mask: u8) -> u8 {
        let moves = self.course.moves;
        let least = at(&place.table, cell(moves, other, number), FAR);
        let most = self
            .period
            .wrapping_sub(at(&place.table, cell(moves, number, other), FAR));
        let room = most.wrapping_sub(least);
        if room.wrapping_sub(self.period.wrapping_sub(1)) >= self.course.wide(number, other) {
            return mask;
        }
        self.spend(4);
        let hoist = lowest(at(&place.masks, other, 0));
        let spans = self.course.span_place(number, other, hoist);
        let mut mask = mask;
        for h in 0..self.course.hoists {
            if has(mask, h) {
                let span = self.course.span_at(spans, h);
                if !span.is_free()
                    && !self.has_order(
                        least.wrapping_add(span.after),
                        most.wrapping_sub(span.before),
                    )
                {
                    mask = without(mask, h);
                }
            }
        }
        mask
    }

    // Whether a whole number of periods lies between two ticks.
    fn has_order(&self, least: i32, most: i32) -> bool {
        most.wrapping_sub(least) >= self.period.wrapping_sub(1)
            || floor(most, self.period).wrapping_mul(self.period) >= least
    }
}

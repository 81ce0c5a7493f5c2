//! Depth first, below one state.

use crate::lists::{at, put, share};
use crate::masks::{has, is_one, lowest, only, without};
use crate::place::{ALL, Orders, Place};
use crate::rides::FREE;
use crate::seeker::{Branch, Question, Seeker};
use std::alloc::AllocError;
use std::mem;

/// How a dive ended.
#[derive(Drop)]
pub(crate) enum Dive {
    /// With the orders and hoists of a timetable.
    Found(Place),
    /// There is none.
    Empty,
    /// After as many ways as were allowed.
    Spent,
}

// A question that might be asked; the least score is.
#[derive(Clone, Copy)]
struct Offer {
    score: u64,
    question: Question,
}

impl Seeker {
    /// Seeks a timetable below a state, up to so many ways that come to an end.
    pub(crate) fn dive(&mut self, place: Place, quota: u64) -> Result<Dive, AllocError> {
        let stop = self.fails.wrapping_add(quota);
        let mut place = place;
        self.stamp = self.stamp.wrapping_add(1);
        self.stamps.fill(self.stamp);
        let mut ok = self.spread(&mut place, 0);
        for _step in 0..u64::MAX {
            if self.work >= self.limit {
                break;
            }
            let mut question;
            if ok {
                match self.ask(&place)? {
                    Some(asked) => question = asked,
                    None => return self.leave(Dive::Found(place)),
                }
                self.keep(&place, question)?;
            } else {
                self.fails = self.fails.wrapping_add(1);
                if self.fails > stop {
                    break;
                }
                let Some(branch) = self.stack.pop() else {
                    self.spare.push(place)?;
                    return Ok(Dive::Empty);
                };
                question = branch.question;
                let old = mem::replace(&mut place, branch.place);
                self.spare.push(old)?;
            }
            ok = self.decide(&mut place, question);
        }
        self.spare.push(place)?;
        self.leave(Dive::Spent)
    }

    // Gives back the states that are left.
    fn leave(&mut self, end: Dive) -> Result<Dive, AllocError> {
        for _branch in 0..self.stack.len() {
            if let Some(branch) = self.stack.pop() {
                self.spare.push(branch.place)?;
            }
        }
        Ok(end)
    }

    /// A state in room that was used before.
    pub(crate) fn room(&mut self) -> Place {
        match self.spare.pop() {
            Some(place) => place,
            None => Place::new(self.alloc),
        }
    }

    // Keeps a state for the other answer.
    fn keep(&mut self, place: &Place, question: Question) -> Result<(), AllocError> {
        let mut kept = self.room();
        kept.copy(place)?;
        let other = Question {
            child: if question.child == 0 { 1 } else { 0 },
            ..question
        };
        self.stack.push(Branch {
            place: kept,
            question: other,
        })?;
        let moves = self.course.moves;
        let pairs = self.course.pairs.len();
        self.spend(moves.wrapping_mul(moves) / 4);
        self.spend(pairs.wrapping_mul(2));
        Ok(())
    }

    fn decide(&mut self, place: &mut Place, question: Question) -> bool {
        let since = self.stamp;
        let pairs = self.course.pairs.len();
        let later = question.order.wrapping_mul(self.period);
        if question.number >= pairs {
            let number = question.number - pairs;
            let hoist = question.order.unsigned_abs() as usize;
            let mask = if question.child == 0 {
                only(hoist)
            } else {
                without(at(&place.masks, number, 0), hoist)
            };
            put(&mut place.masks, number, mask);
            self.renew(place, number);
            return self.spread(place, since);
        }
        let pair = self.course.pair(question.number);
        let weights = at(&place.weights, question.number, FREE);
        let done = if question.child == 0 {
            self.add(
                &mut place.table,
                pair.first,
                weights.after.wrapping_sub(later),
            )
        } else {
            self.add(
                &mut place.table,
                pair.second,
                weights.before.wrapping_add(later),
            )
        };
        if !done {
            self.heat_up(question.number);
            return false;
        }
        self.spread(place, since)
    }

    // The next question, with the answer that is tried first; none where all is settled.
    fn ask(&mut self, place: &Place) -> Result<Option<Question>, AllocError> {
        let salt = self.chance.word();
        let mut best: Option<Offer> = None;
        for i in 0..place.open.len() {
            let number = at(&place.open, i, 0) as usize;
            if self.is_sure(&place.masks, number) {
                best = better(best, self.offer_order(place, number, salt));
            }
        }
        for number in 0..self.course.moves {
            if !is_one(at(&place.masks, number, 0)) {
                best = better(best, self.offer_hoist(place, number, salt));
            }
        }
        self.spend(place.open.len().wrapping_mul(4));
        let Some(offer) = best else {
            return Ok(None);
        };
        let question = offer.question;
        let pairs = self.course.pairs.len();
        if question.number < pairs {
            return Ok(Some(question));
        }
        let hoist = self.hoist_to_try(place, question.number - pairs);
        Ok(Some(Question {
            order: (hoist & 7) as i32,
            ..question
        }))
    }

    fn offer_order(&self, place: &Place, number: usize, salt: u64) -> Offer {
        let pair = self.course.pair(number);
        let orders = at(&place.orders, number, ALL);
        let weights = at(&place.weights, number, FREE);
        let like = at(&self.guide_orders, number, i32::MIN);
        let guided = orders.low <= like && like <= orders.high;
        let order = if guided {
            like.min(orders.high.wrapping_sub(1))
        } else {
            middle(orders)
        };
        let later = order.wrapping_mul(self.period);
        let least = self.back(place, pair.first).wrapping_add(weights.after);
        let least_back = self.back(place, pair.second).wrapping_add(weights.before);
        let below = size(later.wrapping_sub(least));
        let above = size(later.wrapping_add(least_back).wrapping_neg());
        let above_first = if guided { like > order } else { above > below };
        Offer {
            score: self.scored(below.wrapping_mul(above), number, salt),
            question: Question {
                number,
                order,
                child: above_first as u8,
            },
        }
    }

    fn offer_hoist(&self, place: &Place, move_number: usize, salt: u64) -> Offer {
        let period = u64::from(self.period.unsigned_abs());
        let others = u64::from(at(&place.masks, move_number, 0).count_ones());
        let number = self.course.pairs.len().wrapping_add(move_number);
        let size = (period.wrapping_mul(period) / 16).wrapping_mul(others.saturating_sub(1));
        Offer {
            score: self.scored(size, number, salt),
            question: Question {
                number,
                order: 0,
                child: 0,
            },
        }
    }

    // A size over the heat, and up to 22 in a hundred more by chance.
    fn scored(&self, size: u64, number: usize, salt: u64) -> u64 {
        let score = share(size.wrapping_mul(65_536), self.heat(number));
        let mixed = (salt ^ (number as u64).wrapping_mul(0x9e37_79b9_7f4a_7c15)).wrapping_mul(
            0xbf58_476d_1ce4_e5b9,
        );
        score.wrapping_add((score / 8).wrapping_mul(mixed >> 61) / 4)
    }

    // The guide's hoist, or the one that forbids least; now and then the one that forbids most.
    fn hoist_to_try(&mut self, place: &Place, number: usize) -> usize {
        let mask = at(&place.masks, number, 0);
        let like = at(&self.guide_hoists, number, 255) as usize;
        if has(mask, like) {
            return like;
        }
        let sign = if self.chance.once_in(8) { -1 } else { 1 };
        let mut best: Option<(i64, usize)> = None;
        for hoist in 0..self.course.hoists {
            if has(mask, hoist) {
                let cost = self.cost(place, number, hoist).wrapping_mul(sign);
                let least = match best {
                    Some((other, _)) => cost < other,
                    None => true,
                };
                if least {
                    best = Some((cost, hoist));
                }
            }
        }
        match best {
            Some((_, hoist)) => hoist,
            None => lowest(mask),
        }
    }

    // How much a hoist of a move forbids with the moves whose hoists are settled.
    fn cost(&self, place: &Place, number: usize, hoist: usize) -> i64 {
        let mut sum = 0i64;
        for other in 0..self.course.moves {
            let mask = at(&place.masks, other, 0);
            if other != number && is_one(mask) {
                let spans = self.course.span_place(number, other, lowest(mask));
                let span = self.course.span_at(spans, hoist);
                if !span.is_free() {
                    let size = span.after.wrapping_add(span.before);
                    sum = sum.wrapping_add(i64::from(size));
                }
            }
        }
        sum
    }
}

// What an answer leaves, in ticks, and one more.
fn size(ticks: i32) -> u64 {
    u64::from(ticks.max(0).unsigned_abs()) + 1
}

// The order in the middle, so that both answers leave some.
fn middle(orders: Orders) -> i32 {
    let more = orders.high.wrapping_sub(orders.low).wrapping_sub(1) / 2;
    orders.low.wrapping_add(more)
}

fn better(best: Option<Offer>, offer: Offer) -> Option<Offer> {
    match best {
        Some(other) if other.score <= offer.score => Some(other),
        _ => Some(offer),
    }
}

// Questions on a hoist: which hoist does a move.

use crate::literals::Literal;
use crate::order_question::Shifts;
use crate::search::Search;
use crate::state::{Kid, State, Weights};
use search_data::Pair;
use std::alloc::AllocError;
use walk_tables::{Arc, at, fade, logarithm, small};

/// The best question on a hoist so far: its score and the move.
#[derive(Clone, Copy)]
pub(crate) struct Deal {
    pub(crate) score: i64,
    pub(crate) m: usize,
}

/// The open orders of a move on a hoist in 16ths of bits, the mean of both ends; and whether the hoist is out of
/// question.
#[derive(Clone, Copy)]
struct Bits {
    sum: i64,
    dead: bool,
}

// What a pair adds at one end.
fn bits_of(shifts: Shifts) -> i64 {
    if shifts.is_empty() {
        -32
    } else {
        logarithm(shifts.most.wrapping_sub(shifts.least).wrapping_add(1))
    }
}

impl<'a> Search<'a> {
    // Whether some k is left for a pair, by a glance.
    fn is_alive(
        &self,
        state: &State,
        pair: &Pair,
        weights: &Weights,
        low: Shifts,
        high: Shifts,
    ) -> bool {
        let first = low
            .least
            .min(high.least)
            .wrapping_sub(1)
            .min(low.most.min(high.most));
        let last = low
            .most
            .max(high.most)
            .wrapping_add(1)
            .max(low.least.max(high.least));
        let [(from, to), (back_from, back_to)] = pair.ends;
        for k in first..=last {
            let one = self.glance(
                state,
                Arc {
                    from,
                    to,
                    w: weights.first,
                    q: 0i64.wrapping_sub(k),
                },
            );
            let other = self.glance(
                state,
                Arc {
                    from: back_from,
                    to: back_to,
                    w: weights.second,
                    q: k.wrapping_sub(1),
                },
            );
            if !one.and(other).is_empty() {
                return true;
            }
        }
        false
    }

    // What move m on a hoist leaves open with another move that has one.
    fn bits_with(&self, state: &State, m: usize, hoist: u8, other: usize) -> Option<Bits> {
        if other == m {
            return None;
        }
        let beside = at(&self.hoist, other, None)?;
        let kind = at(&self.kind, m, None)? as usize;
        let kind_beside = at(&self.kind, other, None)? as usize;
        let span = self.problem.span(kind, hoist, kind_beside, beside)?;
        let weights = Weights {
            first: i64::from(span.after),
            second: i64::from(span.before),
            diff: 0,
        };
        let (a, b) = (small(m), small(other));
        let pair = Pair {
            tank: false,
            a,
            b,
            ends: [(a, b), (b, a)],
        };
        let low = self.shifts(&state.at_low, state.low, pair.ends, &weights);
        let high = self.shifts(&state.at_high, state.high, pair.ends, &weights);
        let empty = low.is_empty() && high.is_empty();
        Some(Bits {
            sum: bits_of(low).wrapping_add(bits_of(high)),
            dead: empty && !self.is_alive(state, &pair, &weights, low, high),
        })
    }

    fn bits(&self, state: &State, m: usize, hoist: u8) -> Bits {
        let mut all = Bits {
            sum: 0,
            dead: false,
        };
        for other in 0..self.problem.nodes {
            if let Some(bits) = self.bits_with(state, m, hoist, other) {
                all.sum = all.sum.wrapping_add(bits.sum);
                all.dead = all.dead || bits.dead;
            }
        }
        all.sum /= 2;
        all
    }

    // The motion of a move that may get a hoist.
    fn open_ride(&self, m: usize) -> Option<usize> {
        if at(&self.hoist, m, Some(0)).is_some() {
            return None;
        }
        let kind = at(&self.kind, m, None)?;
        Some(kind as usize)
    }

    // Sizes of the children of a question on a move's hoist, by hoist; None where it doesn't reach the move.
    fn deal_sizes(&self, state: &State, m: usize, ride: usize) -> [Option<i64>; 8] {
        let reached = self.problem.ride(ride);
        let mut all = [None; 8];
        let mut most = i64::MIN;
        for hoist in 0..8u8 {
            if (hoist as usize) < self.problem.hoists && reached.is_reached(hoist) {
                let bits = self.bits(state, m, hoist);
                most = most.max(bits.sum);
                all[hoist as usize] = Some(bits);
            }
        }
        let mut sum = 0i64;
        for bits in all {
            if let Some(bits) = bits {
                let less = most.wrapping_sub(bits.sum).wrapping_mul(16);
                sum = sum.wrapping_add(fade(less).max(1));
            }
        }
        // the logarithm of the sum over the hoists
        let level = most
            .wrapping_add(logarithm(sum))
            .wrapping_sub(logarithm(1024));
        let mut sizes = [None; 8];
        for hoist in 0..8 {
            if let Some(bits) = all[hoist] {
                let below = level.wrapping_sub(bits.sum).max(0);
                let size = if bits.dead {
                    0
                } else {
                    fade(below.wrapping_mul(2))
                };
                sizes[hoist] = Some(size);
            }
        }
        sizes
    }

    // The score of a question on a move's hoist.
    fn deal_score(&self, state: &State, m: usize, ride: usize, top: i64) -> i64 {
        let mut sum = 0i64;
        for size in self.deal_sizes(state, m, ride) {
            sum = sum.wrapping_add(size.unwrap_or(0));
        }
        sum.wrapping_mul(self.keen(self.problem.pairs.len().wrapping_add(m), top))
    }

    /// The best question on a hoist, of those with a score below one.
    pub(crate) fn best_deal(&self, state: &State, top: i64, below: i64) -> Option<Deal> {
        let mut best: Option<Deal> = None;
        let mut least = below;
        for m in 0..self.problem.nodes {
            let Some(ride) = self.open_ride(m) else {
                continue
            };
            let score = self.deal_score(state, m, ride, top);
            if score < least {
                least = score;
                best = Some(Deal { score, m });
            }
        }
        best
    }

    // A child of a question on a hoist.
    fn deal_kid(
        &mut self,
        state: &State,
        m: usize,
        hoist: u8,
        size: i64,
    ) -> Result<Kid, AllocError> {
        let at_low = self.copied(&state.at_low)?;
        let at_high = self.copied(&state.at_high)?;
        Ok(Kid {
            literal: Literal::Give { m: small(m), hoist },
            arc: None,
            changes: Vec::new(self.alloc),
            stuck: None,
            state: Some(State {
                low: state.low,
                high: state.high,
                at_low,
                at_high,
            }),
            size,
        })
    }

    /// The children of a question on a move's hoist.
    pub(crate) fn deal_kids(&mut self, state: &State, m: usize) -> Result<Vec<Kid>, AllocError> {
        let mut kids = Vec::new(self.alloc);
        let Some(ride) = self.open_ride(m) else {
            return Ok(kids)
        };
        let sizes = self.deal_sizes(state, m, ride);
        for hoist in 0..8u8 {
            if let Some(size) = sizes[hoist as usize] {
                let kid = self.deal_kid(state, m, hoist, size)?;
                kids.push(kid)?;
            }
        }
        Ok(kids)
    }
}

// Questions on order: which of two things comes first.

use crate::literals::Literal;
use crate::search::Search;
use crate::state::{Kid, Range, State, Weights};
use search_data::Pair;
use std::alloc::AllocError;
use walk_tables::{Arc, Link, at, fade, floor, logarithm, small, up, value};

/// The score of what isn't asked.
pub(crate) const NEVER_ASKED: i64 = i64::MAX;

/// The best question on order so far: its score, the pair and the number.
#[derive(Clone, Copy, PartialEq, Eq, PartialOrd, Ord)]
pub(crate) struct Ask {
    pub(crate) score: i64,
    pub(crate) pair: usize,
    pub(crate) q: i64,
}

/// The least and the greatest number of periods by which two things may differ at one end of the feasible periods.
#[derive(Clone, Copy)]
pub(crate) struct Shifts {
    pub(crate) least: i64,
    pub(crate) most: i64,
}

impl Shifts {
    pub(crate) fn is_empty(self) -> bool {
        self.least > self.most
    }
}

impl<'a> Search<'a> {
    /// The longest walk from one node to another in a table.
    #[inline]
    pub(crate) fn walk(&self, table: &[i64], from: u32, to: u32) -> i64 {
        let place = (from as usize)
            .wrapping_mul(self.problem.nodes)
            .wrapping_add(to as usize);
        value(at(table, place, 0))
    }

    /// The whole k with first <= x + k * T and second <= y + (1 - k) * T that the longest walks at a period leave, x
    /// and y being the differences of ticks of the pair's two constraints.
    #[inline]
    pub(crate) fn shifts(
        &self,
        table: &[i64],
        t: i64,
        ends: [(u32, u32); 2],
        weights: &Weights,
    ) -> Shifts {
        let [(from, to), (back_from, back_to)] = ends;
        let least = up(self.walk(table, to, from).wrapping_add(weights.first), t);
        let rest = t
            .wrapping_sub(self.walk(table, back_to, back_from))
            .wrapping_sub(weights.second);
        Shifts {
            least,
            most: floor(rest, t),
        }
    }

    // How much a constraint cuts off at one end; none where it holds there already.
    #[inline]
    fn cut_at(&self, table: &[i64], t: i64, arc: Arc) -> Option<i64> {
        let have = self.walk(table, arc.from, arc.to);
        let over = arc.w.wrapping_add(arc.q.wrapping_mul(t)).wrapping_sub(have);
        if over <= 0 {
            return None;
        }
        let back = self.walk(table, arc.to, arc.from);
        let room = 1i64.wrapping_sub(back).wrapping_sub(have).max(1);
        let left = room.wrapping_sub(over).max(up(room, 50));
        Some(logarithm(room).wrapping_sub(logarithm(left)))
    }

    /// How much a constraint cuts off, that leaves a range of periods by a glance: 0 where none; None where it holds at
    /// both ends already.
    pub(crate) fn cut(&self, state: &State, arc: Arc, range: Range) -> Option<i64> {
        let low = self.cut_at(&state.at_low, state.low, arc);
        let high = self.cut_at(&state.at_high, state.high, arc);
        let sum = match (low, high) {
            (None, None) => return None,
            (Some(x), None) => x,
            (None, Some(y)) => y,
            (Some(x), Some(y)) => x.wrapping_add(y),
        };
        if range.is_empty() {
            return Some(0);
        }
        let all = logarithm(state.high.wrapping_sub(state.low).wrapping_add(1));
        let left = logarithm(range.high.wrapping_sub(range.low).wrapping_add(1));
        Some(all.wrapping_sub(left).wrapping_mul(2).wrapping_add(sum))
    }

    // The score of a question, without what activity brings; `NEVER_ASKED` where a side holds already.
    fn order_score(&self, state: &State, pair: &Pair, weights: &Weights, q: i64) -> i64 {
        let mut score = 0i64;
        for arc in Search::arcs(pair, weights, q) {
            let range = self.glance(state, arc);
            let Some(cut) = self.cut(state, arc, range) else {
                return NEVER_ASKED
            };
            if !range.is_empty() {
                score = score.wrapping_add(fade(cut));
            }
        }
        score
    }

    // The best question on a pair.
    fn best_of(&self, state: &State, number: usize, keen: i64) -> Ask {
        let mut best = Ask {
            score: NEVER_ASKED,
            pair: number,
            q: 0,
        };
        let pair = self.pair(number);
        let Some(weights) = self.weights(&pair) else {
            return best
        };
        let low = self.shifts(&state.at_low, state.low, pair.ends, &weights);
        let high = self.shifts(&state.at_high, state.high, pair.ends, &weights);
        let first = low.least.min(high.least).wrapping_sub(1);
        let last = low.most.max(high.most).max(first);
        for q in first..=last {
            let score = self.order_score(state, &pair, &weights, q);
            if score < NEVER_ASKED && score.wrapping_mul(keen) < best.score {
                best.score = score.wrapping_mul(keen);
                best.q = q;
            }
        }
        best
    }

    /// The best question on order, of those with a score below one.
    pub(crate) fn best_order(&mut self, state: &State, top: i64) -> Ask {
        let mut best = Ask {
            score: NEVER_ASKED,
            pair: 0,
            q: 0,
        };
        for number in 0..self.problem.pairs.len() {
            let keen = self.keen(number, top);
            let mut here = self.best_of(state, number, keen);
            if here.score == NEVER_ASKED {
                continue;
            }
            if self.noisy {
                let noise = (here.score / 20).wrapping_mul(self.chance()) / 1024;
                here.score = here.score.wrapping_add(noise);
            }
            best = best.min(here);
        }
        best
    }

    // A child of a question on order.
    fn order_kid(&mut self, state: &State, arc: Arc, literal: Literal) -> Result<Kid, AllocError> {
        self.links.push(Link {
            arc,
            word: 0,
            level: 0,
        })?;
        let range = self.glance(state, arc);
        let settled = self.settle(range, Some((state, arc)))?;
        self.links.pop();
        let size = match &settled {
            Some(below) => {
                let range = Range {
                    low: below.low,
                    high: below.high,
                };
                fade(self.cut(state, arc, range).unwrap_or(0).wrapping_mul(4))
            }
            None => 0,
        };
        Ok(Kid {
            literal,
            arc: Some(arc),
            changes: Vec::new(self.alloc),
            stuck: None,
            state: settled,
            size,
        })
    }

    /// The children of a question on order.
    pub(crate) fn order_kids(
        &mut self,
        state: &State,
        number: usize,
        q: i64,
    ) -> Result<Vec<Kid>, AllocError> {
        let mut kids = Vec::new(self.alloc);
        let pair = self.pair(number);
        let Some(weights) = self.weights(&pair) else {
            return Ok(kids)
        };
        let [first, second] = Search::arcs(&pair, &weights, q);
        for (child, arc) in [(0, first), (1, second)] {
            let literal = Literal::Order {
                pair: small(number),
                q,
                child,
                diff: weights.diff,
            };
            let kid = self.order_kid(state, arc, literal)?;
            kids.push(kid)?;
        }
        Ok(kids)
    }
}

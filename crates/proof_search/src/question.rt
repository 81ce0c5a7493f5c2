// Which question is asked, and its children.

use crate::literals::Literal;
use crate::order_question::{Ask, NEVER_ASKED};
use crate::search::Search;
use crate::state::{Change, Kid, Range, State};
use std::alloc::AllocError;
use walk_tables::{Link, at, fade, floor, index, small};

// A question on a tank counts for half: it settles more than its score tells.
const EAGER: i64 = 2;

impl<'a> Search<'a> {
    /// The greatest activity and one more.
    fn most_active(&self) -> i64 {
        let mut most = 0u64;
        for x in self.activity.iter() {
            most = most.max(*x);
        }
        i64::try_from(most).unwrap_or(0).wrapping_add(1)
    }

    /// By how many of 1024 the score of a thing counts; the less, the more active it is. `top` is above all activities.
    #[inline]
    pub(crate) fn keen(&self, thing: usize, top: i64) -> i64 {
        let active = i64::try_from(at(&self.activity, thing, 0)).unwrap_or(0);
        1024i64.wrapping_sub(floor(active.wrapping_mul(614), top))
    }

    // Whether no question fails at the least ticks of the lower end.
    pub(crate) fn is_solved(&self, state: &State) -> bool {
        for hoist in self.hoist.iter() {
            if hoist.is_none() {
                return false;
            }
        }
        for number in 0..self.problem.pairs.len() {
            if self.fails(state, number) {
                return false;
            }
        }
        true
    }

    // The tick of a node at the lower end.
    fn tick(&self, state: &State, node: u32) -> i64 {
        self.walk(&state.at_low, 0, node)
    }

    // Whether some question on a pair fails at the least ticks of the lower end.
    fn fails(&self, state: &State, number: usize) -> bool {
        let pair = self.pair(number);
        let Some(weights) = self.weights(&pair) else {
            return false
        };
        let [(from, to), (back_from, back_to)] = pair.ends;
        let there = self.tick(state, to).wrapping_sub(self.tick(state, from));
        let back = self
            .tick(state, back_to)
            .wrapping_sub(self.tick(state, back_from));
        // the least q for which child 1 doesn't hold; child 0 must hold there
        let q = floor(back.wrapping_sub(weights.second), state.low).wrapping_add(1);
        there < weights.first.wrapping_sub(q.wrapping_mul(state.low))
    }

    // The score of a question on a visit's tank.
    fn tank_score(
        &self,
        state: &State,
        visit: usize,
        room: &mut Vec<Change>,
    ) -> Result<i64, AllocError> {
        let mut score = 0i64;
        for tank in 0..self.problem.stop_of(visit).count.min(4) as u8 {
            let stuck = self.changes_of(visit, tank, room)?;
            let mut closed = stuck.is_some();
            let mut sum = 0i64;
            for change in room.iter() {
                let range = self.glance(state, change.arc);
                closed = closed || range.is_empty();
                sum = sum.wrapping_add(self.cut(state, change.arc, range).unwrap_or(0));
            }
            if !closed {
                score = score.wrapping_add(fade(sum));
            }
        }
        Ok(score)
    }

    // The visit whose tank is asked for with the least score, below a score.
    fn best_tank(&self, state: &State, top: i64, below: i64) -> Result<Option<usize>, AllocError> {
        let mut best = None;
        let mut least = below;
        let mut room = Vec::new(self.alloc);
        let first = self.problem.pairs.len().wrapping_add(self.problem.nodes);
        for visit in 0..self.problem.visits {
            if at(&self.tank, visit, Some(0)).is_some() {
                continue;
            }
            let keen = self.keen(first.wrapping_add(visit), top);
            let score = self.tank_score(state, visit, &mut room)?.wrapping_mul(keen) / EAGER;
            if score < least {
                least = score;
                best = Some(visit);
            }
        }
        Ok(best)
    }

    // A child of a question on a tank.
    fn tank_kid(&mut self, state: &State, visit: usize, tank: u8) -> Result<Kid, AllocError> {
        let mut changes = Vec::new(self.alloc);
        let stuck = self.changes_of(visit, tank, &mut changes)?;
        let mut range = Range {
            low: state.low,
            high: state.high,
        };
        let mut sum = 0i64;
        let old = self.links.len();
        for change in changes.iter() {
            let one = self.glance(state, change.arc);
            range = range.and(one);
            sum = sum.wrapping_add(self.cut(state, change.arc, one).unwrap_or(0));
            self.links.push(Link {
                arc: change.arc,
                word: change.word,
                level: 0,
            })?;
        }
        let settled = if stuck.is_none() {
            self.settle(range, None)?
        } else {
            None
        };
        self.links.truncate(old);
        let size = if settled.is_some() { fade(sum) } else { 0 };
        Ok(Kid {
            literal: Literal::Take {
                visit: small(visit),
                tank,
            },
            arc: None,
            changes,
            stuck,
            state: settled,
            size,
        })
    }

    fn tank_kids(&mut self, state: &State, visit: usize) -> Result<Vec<Kid>, AllocError> {
        let mut kids = Vec::new(self.alloc);
        for tank in 0..self.problem.stop_of(visit).count.min(4) as u8 {
            let kid = self.tank_kid(state, visit, tank)?;
            kids.push(kid)?;
        }
        Ok(kids)
    }

    /// The children of the question that is asked below a state; none where there is none.
    pub(crate) fn kids_of(&mut self, state: &State) -> Result<Vec<Kid>, AllocError> {
        match self.forbidden(state) {
            Some(Literal::Order { pair, q, .. }) => return self.order_kids(state, pair as usize, q),
            Some(Literal::Give { m, .. }) => return self.deal_kids(state, m as usize),
            _ => {}
        }
        let top = self.most_active();
        let Ask { score, pair, q } = self.best_order(state, top);
        let deal = if score > 0 {
            self.best_deal(state, top, score)
        } else {
            None
        };
        let least = match deal {
            Some(deal) => deal.score,
            None => score,
        };
        if let Some(visit) = self.best_tank(state, top, least)? {
            return self.tank_kids(state, visit);
        }
        match deal {
            Some(deal) => self.deal_kids(state, deal.m),
            None if score < NEVER_ASKED => self.order_kids(state, pair, q),
            None => Ok(Vec::new(self.alloc)),
        }
    }

    /// How much of its parent's share of a tree a child has.
    pub(crate) fn share_of(weight: u64, size: i64, whole: u64) -> u64 {
        let own = (index(size) as u64).wrapping_add(1);
        if whole == 0 {
            0
        } else {
            weight.wrapping_mul(own) / whole
        }
    }
}

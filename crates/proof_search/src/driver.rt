// From one try to the next: which periods are looked at, and for how long.

use crate::hunting::Turns;
use crate::search::{Search, Try, WHOLE};
use crate::state::Range;
use crate::tree::Tree;
use std::alloc::AllocError;
use std::mem;

// How many more trees are tried for a smaller one, and over how many nodes at least.
const MORE_TREES: u32 = 8;

const SPARE: u64 = 1000;

/// A tree that is proved: its root, the period below which it closes all, and its nodes.
#[derive(Drop)]
pub(crate) struct Proof {
    pub(crate) root: u32,
    pub(crate) bound: i64,
}

/// Where the way from try to try stands.
#[derive(Clone, Copy)]
struct Progress {
    /// Periods below it are refuted.
    low: i64,
    /// How far the next window goes.
    step: i64,
    quota: u64,
    round: u64,
    /// Whether a window took too long.
    stalled: bool,
}

impl<'a> Search<'a> {
    /// One try: the periods from `from` to `cap` - 1, over about `quota` nodes. The root of a tree, where none of the
    /// periods is left; the least of them for which a timetable was found is the best then.
    fn attempt(
        &mut self,
        from: i64,
        cap: i64,
        quota: u64,
        hunts: bool,
    ) -> Result<Option<u32>, AllocError> {
        self.reset()?;
        self.from = from;
        self.cap = cap;
        self.one = Try {
            quota,
            stop: self.nodes.wrapping_add(quota),
            begun: self.nodes,
            hunts,
            weight: WHOLE,
            shut: 0,
        };
        let range = Range {
            low: from,
            high: cap.wrapping_sub(1),
        };
        match self.settle(range, None)? {
            Some(state) => self.refuted(state),
            None => Ok(self.leaf(false, 1)?.map(|(node, _)| node)),
        }
    }

    /// The least period that the constraints that always hold leave.
    pub(crate) fn root_low(&mut self) -> Result<i64, AllocError> {
        self.reset()?;
        let range = Range {
            low: 1,
            high: self.top().wrapping_sub(1),
        };
        match self.settle(range, None)? {
            Some(state) => {
                let low = state.low;
                self.free(state)?;
                Ok(low)
            }
            None => Ok(self.top()),
        }
    }

    // Whether little is open between the refuted periods and the best.
    fn is_near(&self, low: i64) -> bool {
        self.best.is_some() && self.top().wrapping_sub(low) <= self.top() / 8
    }

    // Seeks timetables in the lower half of what is open.
    fn halve(&mut self, progress: &mut Progress) -> Result<(), AllocError> {
        let top = self.top();
        let middle = match self.best {
            Some(_) => progress
                .low
                .wrapping_add(top.wrapping_sub(progress.low) / 2),
            None => progress.low.wrapping_mul(2),
        };
        if middle <= progress.low.wrapping_add(progress.step) || middle >= top {
            return Ok(());
        }
        let hunts = progress.round % 2 == 1;
        if self
            .attempt(progress.low, middle, progress.quota, hunts)?
            .is_some()
        {
            progress.low = middle.min(self.top());
        }
        Ok(())
    }

    // Refutes the next window of periods at the lower end.
    fn widen(&mut self, progress: &mut Progress) -> Result<(), AllocError> {
        let high = self.top();
        let cap = progress.low.wrapping_add(progress.step).min(high);
        if self
            .attempt(progress.low, cap, progress.quota, false)?
            .is_some()
        {
            progress.low = cap.min(self.top());
            progress.step = progress
                .step
                .wrapping_add(progress.step / 2)
                .wrapping_add(1);
            return Ok(());
        }
        if self.top() == high {
            progress.step = (progress.step / 2).max(1);
        }
        progress.stalled = true;
        Ok(())
    }

    // One round: a hunt while there is no timetable, a half, a window, and a proof of all where it is time for one. The
    // root of a proof of all.
    fn round(&mut self, progress: &mut Progress) -> Result<Option<u32>, AllocError> {
        if self.best.is_none() {
            let root = self.attempt(1, self.top(), progress.quota / 2, true)?;
            if root.is_some() {
                return Ok(root);
            }
        }
        let near = self.is_near(progress.low);
        if progress.stalled && !near {
            self.halve(progress)?;
        }
        if progress.low < self.top() && !(near && progress.stalled) {
            self.widen(progress)?;
        }
        let closed = progress.low >= self.top();
        let due = progress.stalled && (near || progress.round % 4 == 3);
        if self.best.is_some() && (closed || due) || progress.low > self.problem.max_period {
            let root = self.attempt(1, self.top(), progress.quota.wrapping_mul(2), false)?;
            if root.is_some() {
                return Ok(root);
            }
        }
        if progress.stalled || closed {
            progress.quota = longer(progress.quota);
            if near {
                progress.quota = longer(progress.quota);
            }
            self.noisy = true;
            progress.round = progress.round.wrapping_add(1);
        }
        Ok(None)
    }

    /// Whether all nodes are spent.
    pub(crate) fn is_spent(&self) -> bool {
        self.nodes >= self.limit
    }

    /// The root of a tree that refutes all periods below the best, where one is found within so many more nodes. It
    /// takes turns with a hunt.
    pub(crate) fn solve(
        &mut self,
        turns: &mut Turns,
        more: u64,
    ) -> Result<Option<u32>, AllocError> {
        self.limit = self.limit.saturating_add(more);
        let low = self.root_low()?;
        let mut progress = Progress {
            low,
            step: (low / 16).max(1),
            quota: 500,
            round: 0,
            stalled: false,
        };
        for _turn in 0..u64::MAX {
            self.hunt(turns, progress.low)?;
            if self.is_spent() {
                break;
            }
            let root = self.round(&mut progress)?;
            self.low = progress.low;
            if root.is_some() {
                return Ok(root);
            }
        }
        Ok(None)
    }

    /// The root of the smallest of a few trees that refute all periods below the best, the first of which is at hand.
    /// The others take an eighth of the nodes that were expanded before, or some thousand.
    pub(crate) fn smallest(&mut self, root: u32) -> Result<u32, AllocError> {
        let mut root = root;
        let mut kept = Tree::new(self.alloc);
        let stop = self.nodes.saturating_add((self.nodes / 8).max(SPARE));
        for _turn in 0..MORE_TREES {
            let size = self.tree.size(root);
            let quota = self.nodes.wrapping_sub(self.one.begun).max(1);
            if size < 2 || self.nodes.saturating_add(quota) > stop {
                break;
            }
            self.keep(&mut kept);
            let other = self.attempt(1, self.top(), quota, false)?;
            self.noisy = true;
            match other {
                Some(other) if self.tree.size(other) < size => root = other,
                _ => self.keep(&mut kept),
            }
        }
        Ok(root)
    }

    // Keeps the tree at hand, which closes all periods below one.
    fn keep(&mut self, tree: &mut Tree) {
        mem::swap(&mut self.tree, tree);
    }

    /// The greatest period that is found within so many more nodes, below which all are refuted, with its tree. `aim`
    /// is a period that is worth a try first.
    pub(crate) fn best_bound(&mut self, more: u64, aim: i64) -> Result<Option<Proof>, AllocError> {
        self.limit = self.limit.saturating_add(more);
        let first = self.root_low()?;
        let Some(root) = self.attempt(1, first, more, false)? else {
            return Ok(None)
        };
        let mut proof = Proof { root, bound: first };
        let mut kept = Tree::new(self.alloc);
        self.keep(&mut kept);
        let mut step = self.low.wrapping_sub(first).max(first / 32).max(1);
        let mut quota = 1000u64;
        let mut natural = Some(aim);
        for _turn in 0..u64::MAX {
            if self.is_spent() || proof.bound >= self.top() {
                break;
            }
            let next = match natural.take() {
                Some(aim) if aim > proof.bound && aim <= self.top() => aim,
                _ => proof.bound.wrapping_add(step).min(self.top()),
            };
            let before = self.top();
            match self.attempt(1, next, quota, false)? {
                Some(root) => {
                    let reached = self.cap.min(next);
                    if reached == next {
                        step = step.wrapping_add(step / 2);
                    }
                    proof = Proof {
                        root,
                        bound: reached,
                    };
                    self.keep(&mut kept);
                }
                None if self.top() == before => {
                    if step == 1 {
                        quota = quota.wrapping_mul(2);
                    }
                    step = (step / 2).max(1);
                    quota = longer(quota);
                }
                None => {}
            }
        }
        self.keep(&mut kept);
        Ok(Some(proof))
    }
}

// A quarter more.
fn longer(quota: u64) -> u64 {
    quota.wrapping_add(quota / 4)
}

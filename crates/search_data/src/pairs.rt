// Pairs of visits of one tank, and of moves.

use crate::problem::Problem;
use std::alloc::AllocError;
use walk_tables::small;

/// Two visits or two moves one of which comes first: child 0 of a question with number q is a constraint between the
/// first ends with -q, child 1 one between the second ends with q.
#[derive(Clone, Copy)]
pub struct Pair {
    /// Whether these are visits that may use one tank; else they are moves.
    pub tank: bool,
    pub a: u32,
    pub b: u32,
    pub ends: [(u32, u32); 2],
}

/// Stands where no pair is.
pub const NO_PAIR: Pair = Pair {
    tank: false,
    a: 0,
    b: 0,
    ends: [(0, 0); 2],
};

impl Problem {
    // The pairs of visits whose stages have a tank in common.
    fn push_visit_pairs(&mut self) -> Result<(), AllocError> {
        for a in 0..self.visits {
            for b in a.wrapping_add(1)..self.visits {
                if !self
                    .stop(self.stage_of(a))
                    .meets(&self.stop(self.stage_of(b)))
                {
                    continue;
                }
                let (x, y) = (self.hold(a, 0), self.hold(b, 0));
                self.pairs.push(Pair {
                    tank: true,
                    a: small(a),
                    b: small(b),
                    ends: [(x.end, y.begin), (y.end, x.begin)],
                })?;
            }
        }
        Ok(())
    }

    fn push_move_pairs(&mut self) -> Result<(), AllocError> {
        for a in 0..self.nodes {
            for b in a.wrapping_add(1)..self.nodes {
                let (a, b) = (small(a), small(b));
                self.pairs.push(Pair {
                    tank: false,
                    a,
                    b,
                    ends: [(a, b), (b, a)],
                })?;
            }
        }
        Ok(())
    }

    /// Adds the pairs of visits, and after them those of moves.
    pub(crate) fn push_pairs(&mut self) -> Result<(), AllocError> {
        self.push_visit_pairs()?;
        self.push_move_pairs()
    }
}

// The constraints that hold on every path.

use crate::problem::Problem;
use crate::rides::Lasts;
use crate::stages::NO_STAGE;
use std::alloc::AllocError;
use walk_tables::{Arc, at, small};

/// What a constraint says: its token's kind.
#[derive(Clone, Copy, PartialEq, Eq)]
pub enum Kind {
    Min,
    Max,
    Entry,
    Visit,
    Repeat,
}

/// A constraint that holds on every path, with what its token says, and the move whose duration it speaks of.
#[derive(Clone, Copy)]
pub struct Fixed {
    pub arc: Arc,
    pub kind: Kind,
    pub carrier: u32,
    pub place: u32,
    pub of: Option<u32>,
}

impl Problem {
    fn push_fixed(
        &mut self,
        kind: Kind,
        (carrier, place): (usize, usize),
        (from, to): (usize, usize),
        (w, q): (i64, i64),
        of: Option<usize>,
    ) -> Result<(), AllocError> {
        self.base.push(Fixed {
            arc: Arc {
                from: small(from),
                to: small(to),
                w,
                q,
            },
            kind,
            carrier: small(carrier),
            place: small(place),
            of: of.map(|m| small(m)),
        })?;
        Ok(())
    }

    // How long a move lasts while all tanks are open.
    fn open_lasts(&self, m: usize) -> Lasts {
        self.lasts(m, None, None)
    }

    fn push_windows(&mut self) -> Result<(), AllocError> {
        for c in 0..self.degree {
            for k in 1..self.steps {
                let (m, next) = (self.node(c, k.wrapping_sub(1)), self.node(c, k));
                let w = self.open_lasts(m).low.wrapping_add(self.stop(k).min);
                self.push_fixed(Kind::Min, (c, k), (m, next), (w, 0), Some(m))?;
            }
        }
        for c in 0..self.degree {
            for k in 1..self.steps {
                let (m, next) = (self.node(c, k.wrapping_sub(1)), self.node(c, k));
                if let Some(most) = self.stop(k).max {
                    let w = 0i64.wrapping_sub(self.open_lasts(m).high.wrapping_add(most));
                    self.push_fixed(Kind::Max, (c, k), (next, m), (w, 0), Some(m))?;
                }
            }
        }
        Ok(())
    }

    fn push_entries(&mut self) -> Result<(), AllocError> {
        let w = self.load.wrapping_add(self.stop(0).lift);
        for c in 0..self.degree {
            let next = c.wrapping_add(1);
            let (to, q) = if next < self.degree {
                (self.node(next, 0), 0)
            } else {
                (0, -1)
            };
            let from = self.node(c, 0);
            self.push_fixed(Kind::Entry, (c, 0), (from, to), (w, q), None)?;
        }
        Ok(())
    }

    fn push_visits(&mut self) -> Result<(), AllocError> {
        let last = self.steps.wrapping_sub(1);
        for c in 0..self.degree {
            for k in 1..self.steps {
                let (m, next) = (self.node(c, k.wrapping_sub(1)), self.node(c, k));
                let stop = self.stop(k);
                let held = stop.lift.wrapping_add(stop.lower);
                let w = held.wrapping_sub(self.open_lasts(m).high);
                self.push_fixed(Kind::Visit, (c, k), (next, m), (w, -1), Some(m))?;
            }
            let end = self.node(c, last);
            let w = self.stop(self.steps).lower.wrapping_add(self.unload);
            self.push_fixed(Kind::Visit, (c, self.steps), (end, end), (w, -1), None)?;
        }
        Ok(())
    }

    fn push_repeats(&mut self) -> Result<(), AllocError> {
        for c in 0..self.degree {
            for k in 0..self.steps {
                let m = self.node(c, k);
                let w = self.open_lasts(m).back;
                self.push_fixed(Kind::Repeat, (c, k), (m, m), (w, -1), Some(m))?;
            }
        }
        Ok(())
    }

    /// Adds the constraints that hold on every path, in the order of a path's constraints.
    pub(crate) fn push_base(&mut self) -> Result<(), AllocError> {
        self.push_windows()?;
        self.push_entries()?;
        self.push_visits()?;
        self.push_repeats()
    }

    pub(crate) fn stop(&self, k: usize) -> crate::stages::Stop {
        at(&self.stops, k, NO_STAGE)
    }
}

// The states of paths.

use crate::search::Search;
use crate::state::{Range, State};
use std::alloc::AllocError;
use walk_tables::{Arc, FINE, at, packed, parts, patch, up, walks_between};

// A sign that lets the steeper of equal walks count, as at the least period.
const STEEPER: i64 = 1;
// The flatter, as at the greatest.
const FLATTER: i64 = -1;

impl<'a> Search<'a> {
    // Memory for a table.
    pub(crate) fn table(&mut self) -> Vec<i64> {
        match self.pool.pop() {
            Some(table) => table,
            None => Vec::new(self.alloc),
        }
    }

    /// A copy of a table.
    pub(crate) fn copied(&mut self, table: &[i64]) -> Result<Vec<i64>, AllocError> {
        let mut copy = self.table();
        copy.clear();
        copy.extend_from_slice(table)?;
        Ok(copy)
    }

    // Makes the table at the least feasible period from `range.low` on; that period.
    fn settle_low(&mut self, range: Range, table: &mut Vec<i64>) -> Result<i64, AllocError> {
        let mut low = range.low;
        let nodes = self.problem.nodes;
        for _turn in 0..u64::MAX {
            if low > range.high {
                break;
            }
            match walks_between(nodes, &self.links, low, STEEPER, table, &mut self.row)? {
                None => break,
                Some(found) if found.slope >= 0 => low = range.high.wrapping_add(1),
                Some(found) => low = low.wrapping_add(up(
                    found.value,
                    0i64.wrapping_sub(found.slope),
                )),
            }
        }
        Ok(low)
    }

    // Makes the table at the greatest feasible period up to `range.high`; that period.
    fn settle_high(&mut self, range: Range, table: &mut Vec<i64>) -> Result<i64, AllocError> {
        let mut high = range.high;
        let nodes = self.problem.nodes;
        for _turn in 0..u64::MAX {
            if range.low > high {
                break;
            }
            match walks_between(nodes, &self.links, high, FLATTER, table, &mut self.row)? {
                None => break,
                Some(found) if found.slope >= 0 => high = range.low.wrapping_sub(1),
                Some(found) => high = high.wrapping_sub(up(
                    found.value,
                    0i64.wrapping_sub(found.slope),
                )),
            }
        }
        Ok(high)
    }

    // A table with one more constraint, where its period stays.
    fn patched(&mut self, table: &[i64], arc: Arc, weight: i64) -> Result<Vec<i64>, AllocError> {
        let mut copy = self.copied(table)?;
        patch(self.problem.nodes, &mut copy, arc, weight, &mut self.row)?;
        Ok(copy)
    }

    /// The state of the constraints as they stand, within a range of periods. `old`: the state before the last of them.
    pub(crate) fn settle(
        &mut self,
        range: Range,
        old: Option<(&State, Arc)>,
    ) -> Result<Option<State>, AllocError> {
        if range.is_empty() {
            return Ok(None);
        }
        let mut range = range;
        let at_low = match old {
            Some((state, arc)) if state.low == range.low => {
                self.patched(&state.at_low, arc, packed(arc.w, arc.q, range.low, STEEPER))?
            }
            _ => {
                let mut table = self.table();
                range.low = self.settle_low(range, &mut table)?;
                table
            }
        };
        let at_high = match old {
            Some((state, arc)) if state.high == range.high && !range.is_empty() => {
                self.patched(
                    &state.at_high,
                    arc,
                    packed(arc.w, arc.q, range.high, FLATTER),
                )?
            }
            _ => {
                let mut table = self.table();
                range.high = self.settle_high(range, &mut table)?;
                table
            }
        };
        let state = State {
            low: range.low,
            high: range.high,
            at_low,
            at_high,
        };
        if range.is_empty() {
            self.free(state)?;
            return Ok(None);
        }
        Ok(Some(state))
    }

    /// Bounds of the feasible periods with one more constraint, by one step from each end.
    #[inline]
    pub(crate) fn glance(&self, state: &State, arc: Arc) -> Range {
        let back = (arc.to as usize)
            .wrapping_mul(self.problem.nodes)
            .wrapping_add(arc.from as usize);
        let mut range = Range {
            low: state.low,
            high: state.high,
        };
        let closed = at(&state.at_low, back, 0).wrapping_add(packed(
            arc.w, arc.q, state.low, STEEPER,
        ));
        if closed > FINE / 2 {
            let (value, slope) = parts(closed);
            range.low = if slope >= 0 {
                state.high.wrapping_add(1)
            } else {
                state.low.wrapping_add(up(value, 0i64.wrapping_sub(slope)))
            };
        }
        let closed = at(&state.at_high, back, 0).wrapping_add(packed(
            arc.w, arc.q, state.high, FLATTER,
        ));
        if closed > FINE / 2 {
            let (value, slope) = parts(closed);
            range.high = if slope >= 0 {
                state.low.wrapping_sub(1)
            } else {
                state.high.wrapping_sub(up(value, 0i64.wrapping_sub(slope)))
            };
        }
        range
    }

    /// The state with the memory of another one given back.
    pub(crate) fn free_some(&mut self, state: Option<State>) -> Result<(), AllocError> {
        match state {
            Some(state) => self.free(state),
            None => Ok(()),
        }
    }
}

// What the choice of a tank changes.

use crate::search::Search;
use crate::state::Change;
use search_data::{Fixed, Kind, Lasts};
use std::alloc::AllocError;
use walk_tables::{at, small};

// The tanks of a move's two visits, where they are chosen.
#[derive(Clone, Copy)]
struct Ends {
    from: Option<u8>,
    to: Option<u8>,
}

// By how much the weight of a constraint is above the one that it has while all tanks are open.
fn gain(kind: Kind, open: Lasts, now: Lasts) -> i64 {
    match kind {
        Kind::Min => now.low.wrapping_sub(open.low),
        Kind::Repeat => now.back.wrapping_sub(open.back),
        Kind::Max | Kind::Visit | Kind::Entry => open.high.wrapping_sub(now.high),
    }
}

impl<'a> Search<'a> {
    // Adds the constraints that speak of a move and become stronger.
    fn push_changes(
        &self,
        m: usize,
        old: Ends,
        new: Ends,
        changes: &mut Vec<Change>,
    ) -> Result<(), AllocError> {
        let open = self.problem.lasts(m, None, None);
        let was = self.problem.lasts(m, old.from, old.to);
        let now = self.problem.lasts(m, new.from, new.to);
        for i in 0..self.problem.base.len() {
            let Fixed { arc, kind, of, .. } = self.problem.base[i];
            if of != Some(small(m)) {
                continue;
            }
            let more = gain(kind, open, now);
            if more > gain(kind, open, was) {
                let mut arc = arc;
                arc.w = arc.w.wrapping_add(more);
                changes.push(Change {
                    arc,
                    word: small(i),
                })?;
            }
        }
        Ok(())
    }

    /// Writes the constraints that the choice of a tank for a visit makes stronger; a move that it leaves to no hoist.
    pub(crate) fn changes_of(
        &self,
        visit: usize,
        tank: u8,
        changes: &mut Vec<Change>,
    ) -> Result<Option<u32>, AllocError> {
        changes.clear();
        let mut stuck = None;
        let after = visit.wrapping_sub(self.problem.carrier_of(visit));
        for m in [after.wrapping_sub(1), after] {
            let first = self.problem.visit_of(m);
            let old = Ends {
                from: at(&self.tank, first, None),
                to: at(&self.tank, first.wrapping_add(1), None),
            };
            let new = if first == visit {
                Ends {
                    from: Some(tank),
                    to: old.to,
                }
            } else {
                Ends {
                    from: old.from,
                    to: Some(tank),
                }
            };
            if stuck.is_none() && self.problem.is_stuck(m, new.from, new.to) {
                stuck = Some(small(m));
            }
            self.push_changes(m, old, new, changes)?;
        }
        Ok(stuck)
    }
}

// Leaves: walks that refute all periods, resting on as few decisions as can be.

use crate::literals::Literal;
use crate::search::Search;
use std::alloc::AllocError;
use std::mem;
use walk_tables::{BASE, Levels, Link, Walks, at, put};

fn put_used(walk: &[Link], levels: &mut Levels) {
    for link in walk {
        if link.level != BASE {
            levels.put(link.level as usize);
        }
    }
}

// The levels whose constraints stand in walks.
fn used(walks: &Walks) -> Levels {
    let mut levels = Levels::none();
    put_used(&walks.low, &mut levels);
    put_used(&walks.high, &mut levels);
    levels
}

// Whether a constraint of a level stands in a walk.
fn stands_in(walk: &[Link], level: usize) -> bool {
    for link in walk {
        if link.level as usize == level {
            return true;
        }
    }
    false
}

// Writes the constraints that hold on every path and those of some levels but one.
fn write_some(
    links: &[Link],
    levels: &Levels,
    without: usize,
    some: &mut Vec<Link>,
) -> Result<(), AllocError> {
    some.clear();
    for link in links {
        let level = link.level as usize;
        if link.level == BASE || level != without && levels.has(level) {
            some.push(*link)?;
        }
    }
    Ok(())
}

impl<'a> Search<'a> {
    // Finds walks of the constraints as they stand; whether they refute all periods.
    fn refute(&mut self, t: i64) -> Result<bool, AllocError> {
        let range = (self.from, self.cap);
        self.climber
            .climb(self.problem.nodes, &self.links, range, t, &mut self.walks)
    }

    // Does without the constraints of a level, where the others of the levels still refute all.
    fn do_without(&mut self, level: usize, levels: Levels) -> Result<Levels, AllocError> {
        write_some(&self.links, &levels, level, &mut self.some)?;
        // where the lack of this level is felt at once
        let edge = self.walks.reach(self.from).min(self.cap);
        let t = if stands_in(&self.walks.low, level) {
            edge.wrapping_sub(1)
        } else {
            edge
        };
        let range = (self.from, self.cap);
        let nodes = self.problem.nodes;
        if self
            .climber
            .climb(nodes, &self.some, range, t, &mut self.trial)?
        {
            mem::swap(&mut self.walks, &mut self.trial);
            return Ok(used(&self.walks));
        }
        Ok(levels)
    }

    // Raises the activity of what a decision speaks of.
    fn reward(&mut self, literal: Literal) {
        let moves = self.problem.pairs.len();
        match literal {
            Literal::Order { pair, .. } => {
                self.raise_activity(pair as usize);
                let pair = self.pair(pair as usize);
                for m in [pair.a as usize, pair.b as usize] {
                    if !pair.tank && at(&self.gave, m, None).is_some() {
                        self.raise_activity(moves.wrapping_add(m));
                    }
                }
            }
            Literal::Take { visit, .. } => {
                let visits = moves.wrapping_add(self.problem.nodes);
                self.raise_activity(visits.wrapping_add(visit as usize));
            }
            Literal::Give { .. } => {}
        }
    }

    // Adds what the constraints rest on that a choice changed: the choice at the move's other end too.
    fn put_changed(&self, walk: &[Link], levels: &mut Levels) {
        for link in walk {
            if link.level == BASE {
                continue;
            }
            if let Some(fixed) = self.problem.base.get(link.word as usize) {
                if let Some(m) = fixed.of {
                    self.put_move_tanks(m as usize, levels);
                }
            }
        }
    }

    // What the decisions of some levels rest on, with these; all of them gain activity.
    fn rest_on(&mut self, levels: &Levels) -> Levels {
        let mut all = *levels;
        for level in 0..self.path.len() {
            if levels.has(level) {
                let literal = self.literals.get(at(&self.path, level, 0));
                self.put_under(literal, &mut all);
                self.reward(literal);
            }
        }
        all
    }

    /// Lets later activity count more than earlier one.
    pub(crate) fn grow_bump(&mut self) {
        self.bump = self.bump.wrapping_add(self.bump / 19);
        if self.bump > 1 << 40 {
            for thing in 0..self.activity.len() {
                let less = at(&self.activity, thing, 0) >> 20;
                put(&mut self.activity, thing, less);
            }
            self.bump >>= 20;
        }
    }

    /// Adds a leaf for the constraints as they stand, beginning with a look at the period t. Its node, and the levels
    /// that it rests on; none where some period isn't refuted.
    pub(crate) fn leaf(
        &mut self,
        solved: bool,
        t: i64,
    ) -> Result<Option<(u32, Levels)>, AllocError> {
        if !self.refute(t)? {
            return Ok(None);
        }
        let mut levels = used(&self.walks);
        for level in (0..self.path.len()).rev() {
            if levels.has(level) {
                levels = self.do_without(level, levels)?;
            }
        }
        let mut all = self.rest_on(&levels);
        self.put_changed(&self.walks.low, &mut all);
        self.put_changed(&self.walks.high, &mut all);
        self.grow_bump();
        let reach = self.walks.reach(self.from);
        let node = self.tree.push_leaf(&self.walks, solved, reach)?;
        Ok(Some((node, all)))
    }
}

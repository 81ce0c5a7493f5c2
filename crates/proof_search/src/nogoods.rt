// Decisions that can't stand together below the cap, each set with the tree that shows it.

use crate::literals::{Literal, implies};
use crate::search::Search;
use crate::state::State;
use std::alloc::{AllocError, Global};
use walk_tables::{LEVELS, Levels, at, put, small};

/// A set of decisions that can't stand together: a part of the list of decisions, the node of the tree that shows it,
/// how many of them hold on the path, and whether it stands in the list of those that may lack one.
#[derive(Clone, Copy)]
struct Nogood {
    first: u32,
    count: u32,
    node: u32,
    held: u32,
    listed: bool,
}

const NO_NOGOOD: Nogood = Nogood {
    first: 0,
    count: u32::MAX,
    node: 0,
    held: 0,
    listed: true,
};

/// A nogood in which a decision occurs, and the next such entry of this decision.
#[derive(Clone, Copy)]
struct Entry {
    nogood: u32,
    next: u32,
}

const END: u32 = u32::MAX;

const NO_ENTRY: Entry = Entry {
    nogood: END,
    next: END,
};

/// The smallest nogood of those seen.
#[derive(Clone, Copy)]
pub(crate) struct Full {
    size: u64,
    nogood: u32,
}

/// The nogoods of a try.
#[derive(Drop)]
pub(crate) struct Nogoods {
    all: Vec<Nogood>,
    literals: Vec<u32>,
    /// By decision: how many decisions of the path make it hold, and its first entry.
    implied: Vec<u32>,
    heads: Vec<u32>,
    entries: Vec<Entry>,
    /// Nogoods that may lack one decision.
    close: Vec<u32>,
}

impl Nogoods {
    pub(crate) fn new(alloc: Global) -> Nogoods {
        Nogoods {
            all: Vec::new(alloc),
            literals: Vec::new(alloc),
            implied: Vec::new(alloc),
            heads: Vec::new(alloc),
            entries: Vec::new(alloc),
            close: Vec::new(alloc),
        }
    }

    /// Forgets all nogoods; no decision holds.
    pub(crate) fn forget(&mut self) {
        self.implied.fill(0);
        self.heads.fill(END);
        self.entries.clear();
        self.all.clear();
        self.literals.clear();
        self.close.clear();
    }

    /// Takes up a new decision, which so many decisions of the path make hold.
    pub(crate) fn push_literal(&mut self, count: u32) -> Result<(), AllocError> {
        self.implied.push(count)?;
        self.heads.push(END)?;
        Ok(())
    }

    fn nogood(&self, number: u32) -> Nogood {
        at(&self.all, number as usize, NO_NOGOOD)
    }

    fn literal(&self, nogood: &Nogood, place: u32) -> u32 {
        at(
            &self.literals,
            (nogood.first as usize).wrapping_add(place as usize),
            END,
        )
    }

    // Lists a nogood that lacks one decision.
    fn list(&mut self, number: u32) -> Result<(), AllocError> {
        let mut nogood = self.nogood(number);
        if nogood.held.wrapping_add(1) == nogood.count && !nogood.listed {
            nogood.listed = true;
            put(&mut self.all, number as usize, nogood);
            self.close.push(number)?;
        }
        Ok(())
    }

    // Changes by how many decisions of the path one is made to hold; whether it begins or ends to hold.
    fn change(&mut self, literal: u32, up: bool) -> bool {
        let old = at(&self.implied, literal as usize, 0);
        let new = if up {
            old.wrapping_add(1)
        } else {
            old.wrapping_sub(1)
        };
        put(&mut self.implied, literal as usize, new);
        if up { new == 1 } else { new == 0 }
    }

    // A decision begins or ends to hold. The first entry of those in whose nogoods it stands.
    fn touch(&mut self, number: u32, up: bool) -> Result<Nogood, AllocError> {
        let mut nogood = self.nogood(number);
        nogood.held = if up {
            nogood.held.wrapping_add(1)
        } else {
            nogood.held.wrapping_sub(1)
        };
        put(&mut self.all, number as usize, nogood);
        self.list(number)?;
        Ok(nogood)
    }

    // Takes a set of decisions up as a nogood.
    fn push(&mut self, literals: &[u32], node: u32) -> Result<(), AllocError> {
        let number = small(self.all.len());
        let first = small(self.literals.len());
        for literal in literals {
            let place = *literal as usize;
            let next = at(&self.heads, place, END);
            put(&mut self.heads, place, small(self.entries.len()));
            self.entries.push(Entry {
                nogood: number,
                next,
            })?;
            self.literals.push(*literal)?;
        }
        let count = small(literals.len());
        self.all.push(Nogood {
            first,
            count,
            node,
            held: count,
            listed: false,
        })?;
        Ok(())
    }

    // Keeps in the list those that lack one decision.
    fn sift(&mut self) {
        let mut kept = 0usize;
        for place in 0..self.close.len() {
            let number = at(&self.close, place, END);
            let mut nogood = self.nogood(number);
            nogood.listed = nogood.held.wrapping_add(1) == nogood.count;
            put(&mut self.all, number as usize, nogood);
            if nogood.listed {
                put(&mut self.close, kept, number);
                kept = kept.wrapping_add(1);
            }
        }
        self.close.truncate(kept);
    }

    // The decision that a nogood lacks.
    fn lack(&self, nogood: &Nogood) -> u32 {
        for place in 0..nogood.count {
            let literal = self.literal(nogood, place);
            if at(&self.implied, literal as usize, 1) == 0 {
                return literal;
            }
        }
        END
    }
}

impl<'a> Search<'a> {
    // A decision begins to hold: the smallest nogood that is full with it.
    fn begin(&mut self, literal: u32, full: Option<Full>) -> Result<Option<Full>, AllocError> {
        let mut full = full;
        let mut entry = at(&self.nogoods.heads, literal as usize, END);
        for _turn in 0..self.nogoods.entries.len() {
            if entry == END {
                break;
            }
            let here = at(&self.nogoods.entries, entry as usize, NO_ENTRY);
            let nogood = self.nogoods.touch(here.nogood, true)?;
            if nogood.held == nogood.count {
                full = smaller(
                    full,
                    Full {
                        size: self.tree.size(nogood.node),
                        nogood: here.nogood,
                    },
                );
            }
            entry = here.next;
        }
        Ok(full)
    }

    // A decision ends to hold.
    fn end(&mut self, literal: u32) -> Result<(), AllocError> {
        let mut entry = at(&self.nogoods.heads, literal as usize, END);
        for _turn in 0..self.nogoods.entries.len() {
            if entry == END {
                break;
            }
            let here = at(&self.nogoods.entries, entry as usize, NO_ENTRY);
            self.nogoods.touch(here.nogood, false)?;
            entry = here.next;
        }
        Ok(())
    }

    /// Puts a decision on the path; the smallest nogood that is full with it.
    pub(crate) fn enter(&mut self, number: u32) -> Result<Option<Full>, AllocError> {
        self.path.push(number)?;
        let mut full = None;
        if !self.learns {
            return Ok(full);
        }
        let literal = self.literals.get(number);
        let mut here = self.literals.first_of(literal);
        for _turn in 0..self.literals.len() {
            let Some(other) = here else { break };
            if implies(literal, self.literals.get(other)) && self.nogoods.change(other, true) {
                full = self.begin(other, full)?;
            }
            here = self.literals.next_of(other);
        }
        Ok(full)
    }

    /// Takes the last decision off the path.
    pub(crate) fn leave(&mut self) -> Result<(), AllocError> {
        let Some(number) = self.path.pop() else {
            return Ok(())
        };
        if !self.learns {
            return Ok(());
        }
        let literal = self.literals.get(number);
        let mut here = self.literals.first_of(literal);
        for _turn in 0..self.literals.len() {
            let Some(other) = here else { break };
            if implies(literal, self.literals.get(other)) && self.nogoods.change(other, false) {
                self.end(other)?;
            }
            here = self.literals.next_of(other);
        }
        Ok(())
    }

    // The first level whose decision makes one hold.
    fn level_of(&self, literal: Literal) -> usize {
        for level in 0..self.path.len() {
            if implies(self.literals.get(at(&self.path, level, 0)), literal) {
                return level;
            }
        }
        LEVELS
    }

    /// Closes the path by a nogood that is full: the node of its tree, and the levels that stand for its decisions.
    pub(crate) fn graft(&mut self, full: Full) -> (u32, Levels) {
        let nogood = self.nogoods.nogood(full.nogood);
        let mut levels = Levels::none();
        for place in 0..nogood.count {
            let literal = self.literals.get(self.nogoods.literal(&nogood, place));
            levels.put(self.level_of(literal));
            self.put_under(literal, &mut levels);
            match literal {
                Literal::Order { pair, .. } => self.raise_activity(pair as usize),
                Literal::Give { m, .. } => {
                    self.raise_activity(self.problem.pairs.len().wrapping_add(m as usize));
                }
                Literal::Take { .. } => {}
            }
        }
        self.grow_bump();
        (nogood.node, levels)
    }

    /// Learns that the decisions of some levels can't stand together, by the tree at a node.
    pub(crate) fn note(&mut self, node: u32, levels: &Levels) -> Result<(), AllocError> {
        let size = self.tree.size(node);
        if !self.learns || size < 3 || size > 60 || self.nogoods.all.len() > 20_000 {
            return Ok(());
        }
        let mut literals = Vec::new(self.alloc);
        for level in 0..self.path.len() {
            if levels.has(level) {
                literals.push(at(&self.path, level, 0))?;
            }
        }
        if literals.is_empty() || literals.len() > 30 {
            return Ok(());
        }
        self.nogoods.push(&literals, node)
    }

    // Whether it is of use to ask a question whose one side a nogood forbids.
    fn is_asked(&self, state: &State, literal: Literal) -> bool {
        match literal {
            Literal::Give { m, .. } => {
                let m = m as usize;
                at(&self.hoist, m, Some(0)).is_none() && at(&self.kind, m, None).is_some()
            }
            Literal::Take { .. } => false,
            Literal::Order {
                pair,
                q,
                child,
                diff,
            } => {
                let pair = self.pair(pair as usize);
                let Some(weights) = self.weights(&pair) else {
                    return false
                };
                let [first, second] = Search::arcs(&pair, &weights, q);
                let (arc, other) = if child == 0 {
                    (first, second)
                } else {
                    (second, first)
                };
                let range = self.glance(state, arc);
                if weights.diff != diff || range.is_empty() {
                    return false;
                }
                let beside = self.glance(state, other);
                self.cut(state, other, beside).is_some() && self.cut(state, arc, range).is_some()
            }
        }
    }

    /// A decision that some nogood forbids here, by the smallest nogood.
    pub(crate) fn forbidden(&mut self, state: &State) -> Option<Literal> {
        if !self.learns {
            return None;
        }
        self.nogoods.sift();
        let mut best: Option<Full> = None;
        let mut found = None;
        for place in 0..self.nogoods.close.len() {
            let number = at(&self.nogoods.close, place, END);
            let nogood = self.nogoods.nogood(number);
            let full = Full {
                size: self.tree.size(nogood.node),
                nogood: number,
            };
            if !is_smaller(best, full) {
                continue;
            }
            let literal = self.literals.get(self.nogoods.lack(&nogood));
            if self.is_asked(state, literal) {
                best = Some(full);
                found = Some(literal);
            }
        }
        found
    }
}

// Whether a nogood is smaller than another one, or has the lower number.
fn is_smaller(than: Option<Full>, full: Full) -> bool {
    match than {
        Some(other) => (full.size, full.nogood) < (other.size, other.nogood),
        None => true,
    }
}

fn smaller(one: Option<Full>, other: Full) -> Option<Full> {
    if is_smaller(one, other) {
        Some(other)
    } else {
        one
    }
}

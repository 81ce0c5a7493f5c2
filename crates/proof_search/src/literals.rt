// Decisions by what they decide, each with a number.

use search_data::Problem;
use std::alloc::{AllocError, Global};
use walk_tables::{at, index, put, small};

/// A decision: which of two things comes first and by how much, a move's hoist, or a visit's tank.
///
/// `diff` is by how much the hoist of move b is above that of move a, 0 for visits.
#[derive(Clone, Copy, PartialEq, Eq)]
pub(crate) enum Literal {
    Order {
        pair: u32,
        q: i64,
        child: u8,
        diff: i64,
    },
    Give {
        m: u32,
        hoist: u8,
    },
    Take {
        visit: u32,
        tank: u8,
    },
}

/// Stands where no decision is.
pub(crate) const NO_LITERAL: Literal = Literal::Give {
    m: u32::MAX,
    hoist: 0,
};

/// Whether decision a on a path makes b hold.
#[inline]
pub(crate) fn implies(a: Literal, b: Literal) -> bool {
    match (a, b) {
        (
            Literal::Order {
                pair,
                q,
                child,
                diff,
            },
            Literal::Order {
                pair: other,
                q: than,
                child: side,
                diff: shift,
            },
        ) => {
            pair == other
                && child == side
                && diff == shift
                && if child == 0 { q <= than } else { q >= than }
        }
        _ => a == b,
    }
}

// Ends a list of numbers.
const END: u32 = u32::MAX;

/// The decisions that came up. Those of one pair, side and shift of hoists are of one group, as are those of one move
/// and hoist and of one visit and tank.
#[derive(Drop)]
pub(crate) struct Literals {
    all: Vec<Literal>,
    next: Vec<u32>,
    heads: Vec<u32>,
    shifts: usize,
    hoists: usize,
    moves: usize,
    visits: usize,
}

impl Literals {
    pub(crate) fn new(alloc: Global, problem: &Problem) -> Result<Literals, AllocError> {
        let shifts = problem.hoists.wrapping_mul(2).wrapping_sub(1);
        let moves = problem.pairs.len().wrapping_mul(2).wrapping_mul(shifts);
        let visits = moves.wrapping_add(problem.nodes.wrapping_mul(problem.hoists));
        let groups = visits.wrapping_add(problem.visits.wrapping_mul(4));
        let mut heads = Vec::new(alloc);
        heads.resize(groups, END)?;
        Ok(Literals {
            all: Vec::new(alloc),
            next: Vec::new(alloc),
            heads,
            shifts,
            hoists: problem.hoists,
            moves,
            visits,
        })
    }

    pub(crate) fn len(&self) -> usize {
        self.all.len()
    }

    /// A decision by its number.
    #[inline]
    pub(crate) fn get(&self, number: u32) -> Literal {
        at(&self.all, number as usize, NO_LITERAL)
    }

    fn group(&self, literal: Literal) -> usize {
        match literal {
            Literal::Order {
                pair,
                child,
                diff,
                ..
            } => {
                let side = (pair as usize).wrapping_mul(2).wrapping_add(child as usize);
                let last = i64::try_from(self.hoists).unwrap_or(1).wrapping_sub(1);
                let shift = index(diff.wrapping_add(last));
                side.wrapping_mul(self.shifts).wrapping_add(shift)
            }
            Literal::Give { m, hoist } => self
                .moves
                .wrapping_add((m as usize).wrapping_mul(self.hoists))
                .wrapping_add(hoist as usize),
            Literal::Take { visit, tank } => self
                .visits
                .wrapping_add((visit as usize).wrapping_mul(4))
                .wrapping_add(tank as usize),
        }
    }

    /// The first decision of the group of one.
    pub(crate) fn first_of(&self, literal: Literal) -> Option<u32> {
        known(at(&self.heads, self.group(literal), END))
    }

    /// The next decision of the same group.
    #[inline]
    pub(crate) fn next_of(&self, number: u32) -> Option<u32> {
        known(at(&self.next, number as usize, END))
    }

    /// The number of a decision that came up before.
    pub(crate) fn find(&self, literal: Literal) -> Option<u32> {
        let mut here = self.first_of(literal);
        for _turn in 0..self.all.len() {
            let Some(number) = here else { break };
            if self.get(number) == literal {
                break;
            }
            here = self.next_of(number);
        }
        here
    }

    /// Gives a new decision a number.
    pub(crate) fn push(&mut self, literal: Literal) -> Result<u32, AllocError> {
        let number = small(self.all.len());
        let group = self.group(literal);
        self.next.push(at(&self.heads, group, END))?;
        self.all.push(literal)?;
        put(&mut self.heads, group, number);
        Ok(number)
    }
}

#[inline]
fn known(number: u32) -> Option<u32> {
    if number == END { None } else { Some(number) }
}

// The search: what it knows, and its way from one try to the next.

use crate::frames::Frame;
use crate::literals::{Literal, Literals, implies};
use crate::nogoods::Nogoods;
use crate::state::{State, Weights};
use crate::tree::Tree;
use rand_core::utils::NextWord;
use rand_pcg::Pcg32;
use search_data::{NO_PAIR, Pair, Problem};
use std::alloc::{AllocError, Global};
use walk_tables::{Arc, BASE, Climber, Levels, Link, Walks, at, put, small};

/// A timetable: the period, the tick and the hoist of each move, and the number of each visit's tank in its stage.
#[derive(Drop)]
pub(crate) struct Best {
    pub(crate) period: i64,
    pub(crate) ticks: Vec<i64>,
    pub(crate) hoists: Vec<u8>,
    pub(crate) route: Vec<u8>,
}

/// The share of a whole tree, to tell how much of it is closed.
pub(crate) const WHOLE: u64 = 1 << 50;

/// The limits of one try.
#[derive(Clone, Copy)]
pub(crate) struct Try {
    /// About how many nodes it may expand.
    pub(crate) quota: u64,
    /// The count of nodes at which it is asked whether to go on.
    pub(crate) stop: u64,
    /// The count of nodes when it began.
    pub(crate) begun: u64,
    /// Whether it seeks a timetable: the child with the lower least period comes first.
    pub(crate) hunts: bool,
    /// The share of the tree below the node at hand.
    pub(crate) weight: u64,
    /// The share of the tree that is closed.
    pub(crate) shut: u64,
}

/// A search for proofs about one line.
#[derive(Drop)]
pub(crate) struct Search<'a> {
    pub(crate) alloc: Global,
    pub(crate) problem: &'a Problem,
    /// Periods below are refuted elsewhere; 1 for a proof of all.
    pub(crate) from: i64,
    /// Periods from here on are of no interest.
    pub(crate) cap: i64,
    pub(crate) best: Option<Best>,
    /// Periods below were refuted by some try.
    pub(crate) low: i64,
    /// How many nodes were expanded, and how many may be in all.
    pub(crate) nodes: u64,
    pub(crate) limit: u64,
    /// By move: its hoist, the level at which it was given, and its motion.
    pub(crate) hoist: Vec<Option<u8>>,
    pub(crate) gave: Vec<Option<u32>>,
    pub(crate) kind: Vec<Option<u32>>,
    /// By visit: its tank by its number in the stage, and the level at which it was chosen.
    pub(crate) tank: Vec<Option<u8>>,
    pub(crate) took: Vec<Option<u32>>,
    pub(crate) path: Vec<u32>,
    pub(crate) links: Vec<Link>,
    pub(crate) literals: Literals,
    pub(crate) nogoods: Nogoods,
    pub(crate) learns: bool,
    pub(crate) tree: Tree,
    pub(crate) frames: Vec<Frame>,
    /// By pair, then by move, then by visit: how often it closed leaves of late.
    pub(crate) activity: Vec<u64>,
    pub(crate) bump: u64,
    pub(crate) noisy: bool,
    chance: Pcg32,
    pub(crate) one: Try,
    pub(crate) pool: Vec<Vec<i64>>,
    pub(crate) row: Vec<i64>,
    pub(crate) climber: Climber,
    pub(crate) walks: Walks,
    pub(crate) trial: Walks,
    pub(crate) some: Vec<Link>,
}

impl<'a> Search<'a> {
    /// A search that may expand no node yet.
    pub(crate) fn new(alloc: Global, problem: &'a Problem) -> Result<Search<'a>, AllocError> {
        let mut search = Search {
            alloc,
            problem,
            from: 1,
            cap: 1,
            best: None,
            low: 1,
            nodes: 0,
            limit: 0,
            hoist: Vec::new(alloc),
            gave: Vec::new(alloc),
            kind: Vec::new(alloc),
            tank: Vec::new(alloc),
            took: Vec::new(alloc),
            path: Vec::new(alloc),
            links: Vec::new(alloc),
            literals: Literals::new(alloc, problem)?,
            nogoods: Nogoods::new(alloc),
            learns: problem.single,
            tree: Tree::new(alloc),
            frames: Vec::new(alloc),
            activity: Vec::new(alloc),
            bump: 1024,
            noisy: false,
            chance: Pcg32::new(1, 54),
            one: Try {
                quota: 0,
                stop: 0,
                begun: 0,
                hunts: false,
                weight: WHOLE,
                shut: 0,
            },
            pool: Vec::new(alloc),
            row: Vec::new(alloc),
            climber: Climber::new(alloc),
            walks: Walks::new(alloc),
            trial: Walks::new(alloc),
            some: Vec::new(alloc),
        };
        let things = problem
            .pairs
            .len()
            .wrapping_add(problem.nodes)
            .wrapping_add(problem.visits);
        search.activity.resize(things, 0)?;
        search.reset()?;
        Ok(search)
    }

    /// Begins anew at the root, with nothing decided. What was learnt of activity stays.
    pub(crate) fn reset(&mut self) -> Result<(), AllocError> {
        let (nodes, visits) = (self.problem.nodes, self.problem.visits);
        self.path.clear();
        self.drop_frames()?;
        self.links.clear();
        self.push_base()?;
        self.hoist.clear();
        self.hoist.resize(nodes, None)?;
        self.gave.clear();
        self.gave.resize(nodes, None)?;
        self.kind.clear();
        self.kind.resize(nodes, None)?;
        self.took.clear();
        self.took.resize(visits, None)?;
        self.tank.clear();
        for visit in 0..visits {
            let only = self.problem.stop_of(visit).count == 1;
            self.tank.push(if only { Some(0) } else { None })?;
        }
        let mut got = Vec::new(self.alloc);
        self.derive(&mut got)?;
        self.tree.clear();
        self.nogoods.forget();
        Ok(())
    }

    fn push_base(&mut self) -> Result<(), AllocError> {
        for i in 0..self.problem.base.len() {
            let Some(base) = self.problem.base.get(i) else {
                break;
            };
            self.links.push(Link {
                arc: base.arc,
                word: small(i),
                level: BASE,
            })?;
        }
        Ok(())
    }

    /// The best period, or one more than the greatest.
    pub(crate) fn top(&self) -> i64 {
        match &self.best {
            Some(best) => best.period,
            None => self.problem.max_period.wrapping_add(1),
        }
    }

    /// A number of ten bits by chance.
    pub(crate) fn chance(&mut self) -> i64 {
        i64::from(self.chance.next_word() >> 22)
    }

    /// The number of a decision.
    pub(crate) fn number_of(&mut self, literal: Literal) -> Result<u32, AllocError> {
        if let Some(number) = self.literals.find(literal) {
            return Ok(number);
        }
        let number = self.literals.push(literal)?;
        let mut count = 0u32;
        for held in self.path.iter() {
            if implies(self.literals.get(*held), literal) {
                count = count.wrapping_add(1);
            }
        }
        self.nogoods.push_literal(count)?;
        Ok(number)
    }

    /// A pair by its number.
    #[inline]
    pub(crate) fn pair(&self, pair: usize) -> Pair {
        at(&self.problem.pairs, pair, NO_PAIR)
    }

    // Fixed parts of begin and end of a visit, where its tank and that of the visit before are known.
    fn held(&self, visit: usize) -> Option<(i64, i64)> {
        at(&self.tank, visit, None)?;
        let mut lasts = 0;
        if self.problem.stage_of(visit) > 0 {
            let after = visit.wrapping_sub(self.problem.carrier_of(visit));
            let kind = at(&self.kind, after.wrapping_sub(1), None)?;
            lasts = self.problem.ride(kind as usize).lasts;
        }
        let hold = self.problem.hold(visit, lasts);
        Some((hold.begin_part, hold.end_part))
    }

    // The tank of a visit, where it is known.
    fn tank_of(&self, visit: usize) -> Option<u32> {
        let choice = at(&self.tank, visit, None)?;
        Some(self.problem.stop_of(visit).tank(choice))
    }

    fn visit_weights(&self, pair: &Pair) -> Option<Weights> {
        let (a, b) = (pair.a as usize, pair.b as usize);
        let (begin_a, end_a) = self.held(a)?;
        let (begin_b, end_b) = self.held(b)?;
        if self.tank_of(a) != self.tank_of(b) {
            return None;
        }
        Some(Weights {
            first: end_a.wrapping_sub(begin_b),
            second: end_b.wrapping_sub(begin_a),
            diff: 0,
        })
    }

    /// The weights of a pair, where there is something to be asked.
    pub(crate) fn weights(&self, pair: &Pair) -> Option<Weights> {
        if pair.tank {
            return self.visit_weights(pair);
        }
        let (a, b) = (pair.a as usize, pair.b as usize);
        let hoist_a = at(&self.hoist, a, None)?;
        let hoist_b = at(&self.hoist, b, None)?;
        let kind_a = at(&self.kind, a, None)? as usize;
        let kind_b = at(&self.kind, b, None)? as usize;
        let span = self.problem.span(kind_a, hoist_a, kind_b, hoist_b)?;
        Some(Weights {
            first: i64::from(span.after),
            second: i64::from(span.before),
            diff: i64::from(hoist_b).wrapping_sub(i64::from(hoist_a)),
        })
    }

    /// Sets what follows from the tanks: motions, and hoists where one alone reaches. `got` takes the moves that got
    /// one.
    pub(crate) fn derive(&mut self, got: &mut Vec<u32>) -> Result<(), AllocError> {
        for m in 0..self.problem.nodes {
            let visit = self.problem.visit_of(m);
            let from = at(&self.tank, visit, None);
            let to = at(&self.tank, visit.wrapping_add(1), None);
            let (Some(i), Some(j)) = (from, to) else {
                continue
            };
            if at(&self.kind, m, None).is_some() {
                continue;
            }
            let ride = self.problem.ride_between(self.problem.step_of(m), i, j);
            put(&mut self.kind, m, Some(small(ride)));
            if let Some(hoist) = self.problem.ride(ride).only_hoist() {
                put(&mut self.hoist, m, Some(hoist));
            }
            got.push(small(m))?;
        }
        Ok(())
    }

    /// Takes back what followed from a tank.
    pub(crate) fn undo(&mut self, got: &[u32]) {
        for m in got {
            put(&mut self.kind, *m as usize, None);
            put(&mut self.hoist, *m as usize, None);
        }
    }

    // Puts the level of a move's hoist into a set.
    fn put_given(&self, m: usize, levels: &mut Levels) {
        if let Some(level) = at(&self.gave, m, None) {
            levels.put(level as usize);
        }
    }

    // Puts the level of a visit's tank into a set.
    pub(crate) fn put_taken(&self, visit: usize, levels: &mut Levels) {
        if let Some(level) = at(&self.took, visit, None) {
            levels.put(level as usize);
        }
    }

    // Puts the levels of a move's two tanks into a set.
    pub(crate) fn put_move_tanks(&self, m: usize, levels: &mut Levels) {
        let visit = self.problem.visit_of(m);
        self.put_taken(visit, levels);
        self.put_taken(visit.wrapping_add(1), levels);
    }

    /// The levels that a decision rests on besides its own.
    pub(crate) fn put_under(&self, literal: Literal, levels: &mut Levels) {
        match literal {
            Literal::Order { pair, .. } => {
                let pair = self.pair(pair as usize);
                for thing in [pair.a as usize, pair.b as usize] {
                    if !pair.tank {
                        self.put_given(thing, levels);
                        self.put_move_tanks(thing, levels);
                        continue;
                    }
                    self.put_taken(thing, levels);
                    if self.problem.stage_of(thing) > 0 {
                        self.put_taken(thing.wrapping_sub(1), levels);
                    }
                }
            }
            Literal::Give { m, .. } => self.put_move_tanks(m as usize, levels),
            Literal::Take { .. } => {}
        }
    }

    /// The two constraints of a question on a pair.
    #[inline]
    pub(crate) fn arcs(pair: &Pair, weights: &Weights, q: i64) -> [Arc; 2] {
        let [(from, to), (back_from, back_to)] = pair.ends;
        [
            Arc {
                from,
                to,
                w: weights.first,
                q: 0i64.wrapping_sub(q),
            },
            Arc {
                from: back_from,
                to: back_to,
                w: weights.second,
                q,
            },
        ]
    }

    /// Raises the activity of a thing: a pair, or behind these a move, or behind these a visit.
    pub(crate) fn raise_activity(&mut self, thing: usize) {
        let raised = at(&self.activity, thing, 0).wrapping_add(self.bump);
        put(&mut self.activity, thing, raised);
    }

    /// A state's memory is used again.
    pub(crate) fn free(&mut self, state: State) -> Result<(), AllocError> {
        self.pool.push(state.at_low)?;
        self.pool.push(state.at_high)?;
        Ok(())
    }
}

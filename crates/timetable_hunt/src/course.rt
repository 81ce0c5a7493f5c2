//! The line along one route: its constraints, and the pairs of which one thing has to come first.

use crate::lists::{at, narrow};
use crate::rides::{Apart, FREE, Rides, tank_count};
use hoist_base::Line;
use longest_path::Arc;
use std::alloc::{AllocError, Global};

/// The two moves between whose starts a constraint is.
#[derive(Clone, Copy)]
pub(crate) struct Ends {
    pub(crate) from: u8,
    pub(crate) to: u8,
}

/// Two things one of which has to come first: two moves that may meet, or two visits of one tank. In order k the
/// constraint at the first ends has the weight `weights.after - k * period`, and that at the second ones
/// `weights.before + (k - 1) * period`.
#[derive(Clone, Copy)]
pub(crate) struct Pair {
    /// Whether these are visits. The weights of moves depend on their hoists.
    pub(crate) tank: bool,
    /// The two moves; of visits, those before them.
    pub(crate) a: u8,
    pub(crate) b: u8,
    pub(crate) first: Ends,
    pub(crate) second: Ends,
    pub(crate) weights: Apart,
}

/// Stands where a number is no pair's.
const NO_PAIR: Pair = Pair {
    tank: true,
    a: 0,
    b: 0,
    first: Ends { from: 0, to: 0 },
    second: Ends { from: 0, to: 0 },
    weights: FREE,
};

/// When a visit holds its tank: from so many ticks after the start of a move until so many after that of another.
#[derive(Clone, Copy)]
struct Hold {
    begin: (usize, i64),
    end: (usize, i64),
}

/// A line with a route.
#[derive(Drop)]
pub(crate) struct Course {
    line: Line,
    rides: Rides,
    /// The moves of a carrier.
    pub(crate) steps: usize,
    /// The carriers of a period.
    pub(crate) degree: usize,
    pub(crate) moves: usize,
    pub(crate) hoists: usize,
    pub(crate) visits: usize,
    /// Whether every stage has one tank.
    pub(crate) single: bool,
    /// For each visit the place of its tank among those of its stage.
    pub(crate) choices: Vec<u8>,
    /// The kind of each move.
    kinds: Vec<u32>,
    /// The constraints that hold whatever comes first.
    pub(crate) arcs: Vec<Arc>,
    /// The hoists that reach each move.
    pub(crate) reach: Vec<u8>,
    /// The pairs: first those of moves, then those of visits.
    pub(crate) pairs: Vec<Pair>,
    move_pairs: usize,
}

/// The number of a pair of moves a < b among those of `moves` moves.
#[inline]
pub(crate) fn pair_number(moves: usize, a: usize, b: usize) -> usize {
    let rows = moves.wrapping_mul(2).wrapping_sub(a).wrapping_sub(1);
    (a.wrapping_mul(rows) / 2)
        .wrapping_add(b)
        .wrapping_sub(a)
        .wrapping_sub(1)
}

impl Course {
    /// The line along its first route: carrier c uses tank c of each stage, in turn.
    pub(crate) fn new(alloc: Global, line: Line) -> Result<Course, AllocError> {
        let steps = line.inner() as usize + 1;
        let degree = line.degree() as usize;
        let rides = Rides::new(alloc, &line)?;
        let mut course = Course {
            rides,
            steps,
            degree,
            moves: steps.wrapping_mul(degree),
            hoists: line.hoists() as usize,
            visits: steps.wrapping_add(1).wrapping_mul(degree),
            single: line.single(),
            line,
            choices: Vec::new(alloc),
            kinds: Vec::new(alloc),
            arcs: Vec::new(alloc),
            reach: Vec::new(alloc),
            pairs: Vec::new(alloc),
            move_pairs: 0,
        };
        course.add_move_pairs()?;
        course.move_pairs = course.pairs.len();
        let mut choices = Vec::new(alloc);
        for visit in 0..course.visits {
            let carrier = visit / (steps + 1);
            let count = course.choice_count(visit).max(1);
            choices.push((carrier % count & 255) as u8)?;
        }
        course.reroute(choices.as_slice())?;
        Ok(course)
    }

    fn add_move_pairs(&mut self) -> Result<(), AllocError> {
        for a in 0..self.moves {
            for b in a.wrapping_add(1)..self.moves {
                let (a, b) = ((a & 255) as u8, (b & 255) as u8);
                self.pairs.push(Pair {
                    tank: false,
                    a,
                    b,
                    first: Ends { from: a, to: b },
                    second: Ends { from: b, to: a },
                    weights: FREE,
                })?;
            }
        }
        Ok(())
    }

    /// How many pairs are of moves; the others are of visits.
    #[inline]
    pub(crate) fn move_pairs(&self) -> usize {
        self.move_pairs
    }

    /// A pair by its number.
    #[inline]
    pub(crate) fn pair(&self, number: usize) -> Pair {
        at(self.pairs.as_slice(), number, NO_PAIR)
    }

    /// How many tanks a visit may use.
    pub(crate) fn choice_count(&self, visit: usize) -> usize {
        tank_count(&self.line, self.stage_of(visit))
    }

    fn stage_of(&self, visit: usize) -> usize {
        visit % self.steps.wrapping_add(1).max(1)
    }

    /// The visit from which a move leads.
    pub(crate) fn visit_before(&self, number: usize) -> usize {
        let steps = self.steps.max(1);
        number.wrapping_add(number / steps)
    }

    fn kind(&self, number: usize) -> usize {
        at(&self.kinds, number, 0) as usize
    }

    /// The ticks that a move lasts.
    pub(crate) fn length(&self, number: usize) -> i64 {
        self.rides.length(self.kind(number))
    }

    /// Where a move begins and ends, in ticks of travel.
    pub(crate) fn places(&self, number: usize) -> (i64, i64) {
        let motion = self.rides.motion(self.kind(number));
        (i64::from(motion.from), i64::from(motion.to))
    }

    /// Where what move `a` and move `b` on hoist `hb` forbid stands, for `span_at`.
    #[inline]
    pub(crate) fn span_place(&self, a: usize, b: usize, hb: usize) -> usize {
        self.rides.place(self.kind(a), self.kind(b), hb)
    }

    /// What stands at a place for hoist `ha` of the first move.
    #[inline]
    pub(crate) fn span_at(&self, place: usize, ha: usize) -> Apart {
        self.rides.before(place, ha)
    }

    /// The greatest sum of both offsets of two moves, whatever their hoists.
    #[inline]
    pub(crate) fn wide(&self, a: usize, b: usize) -> i32 {
        self.rides.wide(self.kind(a), self.kind(b))
    }

    /// The number of a visit's tank on a route.
    pub(crate) fn tank(&self, choices: &[u8], visit: usize) -> u32 {
        match self.line.stages().get(self.stage_of(visit)) {
            Some(stage) => at(stage.tanks.as_slice(), at(choices, visit, 0) as usize, 0),
            None => 0,
        }
    }

    /// The choices of a route that goes by the numbers of tanks.
    pub(crate) fn choices_of(&self, alloc: Global, tanks: &[u32]) -> Result<Vec<u8>, AllocError> {
        let mut choices = Vec::new(alloc);
        for visit in 0..self.visits {
            choices.push(self.choice_of(visit, at(tanks, visit, 0)))?;
        }
        Ok(choices)
    }

    fn choice_of(&self, visit: usize, tank: u32) -> u8 {
        let Some(stage) = self.line.stages().get(self.stage_of(visit)) else {
            return 0;
        };
        let tanks = stage.tanks.as_slice();
        for choice in 0..tanks.len().min(255) {
            if at(tanks, choice, 0) == tank {
                return choice as u8;
            }
        }
        0
    }

    /// Goes another route: sets all that depends on it.
    pub(crate) fn reroute(&mut self, choices: &[u8]) -> Result<(), AllocError> {
        self.choices.clear();
        self.choices.extend_from_slice(choices)?;
        self.kinds.clear();
        self.reach.clear();
        for number in 0..self.moves {
            let kind = self.kind_on_route(number);
            self.rides.learn(&self.line, kind);
            self.kinds.push((kind & 65_535) as u32)?;
            self.reach.push(self.rides.reach(kind))?;
        }
        self.set_arcs()?;
        self.set_tank_pairs()
    }

    fn kind_on_route(&self, number: usize) -> usize {
        let visit = self.visit_before(number);
        let next = visit.wrapping_add(1);
        let from = at(&self.choices, visit, 0) as usize;
        let to = at(&self.choices, next, 0) as usize;
        let step = number % self.steps.max(1);
        self.rides.kind(step, from, to, self.choice_count(next))
    }

    fn set_arcs(&mut self) -> Result<(), AllocError> {
        self.arcs.clear();
        for carrier in 0..self.degree {
            self.add_entry(carrier)?;
        }
        for number in 0..self.moves {
            self.add_stay(number)?;
        }
        Ok(())
    }

    fn add_arc(&mut self, from: usize, to: usize, w: i64, q: i64) -> Result<(), AllocError> {
        let (from, to) = ((from & 255) as u32, (to & 255) as u32);
        self.arcs.push(Arc { from, to, w, q })?;
        Ok(())
    }

    // Carriers are numbered in the order in which they are put on, the first of the next period last.
    fn add_entry(&mut self, carrier: usize) -> Result<(), AllocError> {
        let first = carrier.wrapping_mul(self.steps);
        let lift = match self.line.stages().get(0) {
            Some(stage) => stage.lift,
            None => 0,
        };
        let w = i64::from(self.line.load()) + i64::from(lift);
        let next = first.wrapping_add(self.steps);
        if next < self.moves {
            self.add_arc(first, next, w, 0)
        } else {
            self.add_arc(first, 0, w, -1)
        }
    }

    // A move, the way back of its hoist, and the stay behind it, which is no longer than a period.
    fn add_stay(&mut self, number: usize) -> Result<(), AllocError> {
        let length = self.length(number);
        let (from, to) = self.places(number);
        let way = from.max(to).wrapping_sub(from.min(to));
        self.add_arc(number, number, length.wrapping_add(way), -1)?;
        let behind = self.stage_of(self.visit_before(number)).wrapping_add(1);
        let Some(stage) = self.line.stages().get(behind) else {
            return Ok(());
        };
        let (lift, lower) = (i64::from(stage.lift), i64::from(stage.lower));
        let (min, max) = (i64::from(stage.min), stage.max);
        if behind >= self.steps {
            let w = lower.wrapping_add(i64::from(self.line.unload()));
            return self.add_arc(number, number, w, -1);
        }
        let next = number.wrapping_add(1);
        self.add_arc(number, next, length.wrapping_add(min), 0)?;
        if let Some(max) = max {
            let most = length.wrapping_add(i64::from(max));
            self.add_arc(next, number, most.wrapping_neg(), 0)?;
        }
        self.add_arc(
            next,
            number,
            lift.wrapping_add(lower).wrapping_sub(length),
            -1,
        )
    }

    fn set_tank_pairs(&mut self) -> Result<(), AllocError> {
        self.pairs.truncate(self.move_pairs);
        for a in 0..self.visits {
            for b in a.wrapping_add(1)..self.visits {
                if self.tank(&self.choices, a) == self.tank(&self.choices, b) {
                    self.add_tank_pair(a, b)?;
                }
            }
        }
        Ok(())
    }

    fn add_tank_pair(&mut self, a: usize, b: usize) -> Result<(), AllocError> {
        let (first, second) = (self.hold(a), self.hold(b));
        self.pairs.push(Pair {
            tank: true,
            a: (first.begin.0 & 255) as u8,
            b: (second.begin.0 & 255) as u8,
            first: ends_of(first, second),
            second: ends_of(second, first),
            weights: Apart {
                after: ticks_apart(first, second),
                before: ticks_apart(second, first),
            },
        })?;
        Ok(())
    }

    fn hold(&self, visit: usize) -> Hold {
        let stages = self.steps.wrapping_add(1).max(1);
        let (carrier, k) = (visit / stages, visit % stages);
        let next = carrier.wrapping_mul(self.steps).wrapping_add(k);
        let (lift, lower) = match self.line.stages().get(k) {
            Some(stage) => (i64::from(stage.lift), i64::from(stage.lower)),
            None => (0, 0),
        };
        if k == 0 {
            return Hold {
                begin: (next, i64::from(self.line.load()).wrapping_neg()),
                end: (next, lift),
            };
        }
        let before = next.wrapping_sub(1);
        let length = self.length(before);
        let end = if k < self.steps {
            (next, lift)
        } else {
            (before, length.wrapping_add(i64::from(self.line.unload())))
        };
        Hold {
            begin: (before, length.wrapping_sub(lower)),
            end,
        }
    }
}

fn ends_of(first: Hold, second: Hold) -> Ends {
    Ends {
        from: (first.end.0 & 255) as u8,
        to: (second.begin.0 & 255) as u8,
    }
}

// By how much the start of the move at which the second hold begins has to follow that at which the first ends.
fn ticks_apart(first: Hold, second: Hold) -> i32 {
    narrow(first.end.1.wrapping_sub(second.begin.1))
}

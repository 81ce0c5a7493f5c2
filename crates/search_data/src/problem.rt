// A line as a search sees it.

use crate::base::Fixed;
use crate::pairs::Pair;
use crate::rides::{FREE, Lasts, NO_RIDE, Ride, Span, rides_of, spans_of};
use crate::stages::{Hold, Stop, stops_of};
use hoist_base::Line;
use std::alloc::{AllocError, Global};
use walk_tables::{at, small};

/// A line as a search sees it: everything that never changes, by number.
///
/// A carrier has `steps` moves and one visit more. Node m is the start of move m.
#[derive(Drop)]
pub struct Problem {
    pub steps: usize,
    pub degree: usize,
    pub nodes: usize,
    pub visits: usize,
    pub hoists: usize,
    pub gap: i64,
    pub load: i64,
    pub unload: i64,
    pub max_period: i64,
    pub single: bool,
    pub stops: Vec<Stop>,
    pub base: Vec<Fixed>,
    pub pairs: Vec<Pair>,
    pub rides: Vec<Ride>,
    pub first: Vec<usize>,
    carriers: Vec<u32>,
    spans: Vec<Span>,
}

// Whether a tank is open: the one that is chosen, or any where none is.
#[inline]
fn is_open(chosen: Option<u8>, tank: u8) -> bool {
    match chosen {
        Some(choice) => choice == tank,
        None => true,
    }
}

impl Problem {
    /// The problem of a line.
    pub fn new(alloc: Global, line: &Line) -> Result<Problem, AllocError> {
        let stops = stops_of(alloc, line)?;
        let (rides, first) = rides_of(alloc, line, &stops)?;
        let spans = spans_of(alloc, line, &rides)?;
        let degree = line.degree() as usize;
        let steps = stops.len().saturating_sub(1);
        let mut problem = Problem {
            steps,
            degree,
            nodes: line.move_count() as usize,
            visits: line.visit_count() as usize,
            hoists: line.hoists() as usize,
            gap: i64::from(line.gap()),
            load: i64::from(line.load()),
            unload: i64::from(line.unload()),
            max_period: i64::from(line.max_period()),
            single: line.single(),
            stops,
            base: Vec::new(alloc),
            pairs: Vec::new(alloc),
            rides,
            first,
            carriers: Vec::new(alloc),
            spans,
        };
        problem.push_carriers()?;
        problem.push_base()?;
        problem.push_pairs()?;
        Ok(problem)
    }

    // The carrier of each visit.
    fn push_carriers(&mut self) -> Result<(), AllocError> {
        for c in 0..self.degree {
            for _k in 0..self.stops.len() {
                self.carriers.push(small(c))?;
            }
        }
        Ok(())
    }

    /// The node of a step of a carrier.
    #[inline]
    pub fn node(&self, carrier: usize, step: usize) -> usize {
        carrier.wrapping_mul(self.steps).wrapping_add(step)
    }

    /// The carrier of a visit.
    #[inline]
    pub fn carrier_of(&self, visit: usize) -> usize {
        at(&self.carriers, visit, 0) as usize
    }

    /// The stage of a visit.
    #[inline]
    pub fn stage_of(&self, visit: usize) -> usize {
        let before = self.carrier_of(visit).wrapping_mul(self.stops.len());
        visit.wrapping_sub(before)
    }

    /// The stage of a visit, with its tanks.
    #[inline]
    pub fn stop_of(&self, visit: usize) -> Stop {
        self.stop(self.stage_of(visit))
    }

    /// The carrier of a move.
    #[inline]
    pub fn carrier_of_move(&self, m: usize) -> usize {
        if self.steps == 0 { 0 } else { m / self.steps }
    }

    /// The step of a move.
    #[inline]
    pub fn step_of(&self, m: usize) -> usize {
        if self.steps == 0 { 0 } else { m % self.steps }
    }

    /// The visit from which a move leads; it leads to the next one.
    #[inline]
    pub fn visit_of(&self, m: usize) -> usize {
        m.wrapping_add(self.carrier_of_move(m))
    }

    /// When a visit holds its tank, the move that brings it lasting `lasts` ticks.
    pub fn hold(&self, visit: usize, lasts: i64) -> Hold {
        let c = self.carrier_of(visit);
        let k = self.stage_of(visit);
        let stop = self.stop(k);
        let after = visit.wrapping_sub(c);
        if k == 0 {
            return Hold {
                begin: small(after),
                begin_part: 0i64.wrapping_sub(self.load),
                end: small(after),
                end_part: stop.lift,
            };
        }
        let before = after.wrapping_sub(1);
        let (end, end_part) = if k < self.steps {
            (after, stop.lift)
        } else {
            (before, lasts.wrapping_add(self.unload))
        };
        Hold {
            begin: small(before),
            begin_part: lasts.wrapping_sub(stop.lower),
            end: small(end),
            end_part,
        }
    }

    /// The motion of a step between tanks i and j of its two stages, by its number.
    #[inline]
    pub fn ride_between(&self, step: usize, i: u8, j: u8) -> usize {
        let width = self.stop(step.wrapping_add(1)).count;
        at(&self.first, step, 0)
            .wrapping_add((i as usize).wrapping_mul(width))
            .wrapping_add(j as usize)
    }

    /// A motion by its number.
    #[inline]
    pub fn ride(&self, number: usize) -> Ride {
        at(&self.rides, number, NO_RIDE)
    }

    /// How long a move lasts, and which hoists reach its ends, over the tanks that are open: those that are named, or
    /// all.
    fn over(&self, m: usize, i: Option<u8>, j: Option<u8>) -> (Option<Lasts>, u8, u8) {
        let step = self.step_of(m);
        let here = self.stop(step).count.min(4) as u8;
        let next = self.stop(step.wrapping_add(1)).count.min(4) as u8;
        let (mut lasts, mut from, mut to): (Option<Lasts>, u8, u8) = (None, 0, 0);
        for x in 0..here {
            for y in 0..next {
                if !is_open(i, x) || !is_open(j, y) {
                    continue;
                }
                let ride = self.ride(self.ride_between(step, x, y));
                let own = Lasts::of(&ride);
                lasts = Some(match lasts {
                    Some(others) => others.and(own),
                    None => own,
                });
                from |= ride.from_mask;
                to |= ride.to_mask;
            }
        }
        (lasts, from, to)
    }

    /// How long a move lasts over the tanks that are open: those that are named, or all.
    pub fn lasts(&self, m: usize, i: Option<u8>, j: Option<u8>) -> Lasts {
        match self.over(m, i, j).0 {
            Some(lasts) => lasts,
            None => Lasts {
                low: 0,
                high: 0,
                back: 0,
            },
        }
    }

    /// Whether no hoist reaches both ends of a move, each by some open tank.
    pub fn is_stuck(&self, m: usize, i: Option<u8>, j: Option<u8>) -> bool {
        let (_, from, to) = self.over(m, i, j);
        from & to == 0
    }

    /// The clash of motion a on hoist ha and motion b on hoist hb, by their numbers.
    #[inline]
    pub fn span(&self, a: usize, ha: u8, b: usize, hb: u8) -> Option<Span> {
        let shift = (hb as usize)
            .wrapping_add(self.hoists)
            .wrapping_sub(1)
            .wrapping_sub(ha as usize);
        let count = self.rides.len();
        let row = shift.wrapping_mul(count).wrapping_add(a);
        let span = at(&self.spans, row.wrapping_mul(count).wrapping_add(b), FREE);
        if span.after == i32::MIN {
            None
        } else {
            Some(span)
        }
    }
}

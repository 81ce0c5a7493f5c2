//! The motions of a line, and by how much the starts of two of them have to lie apart.
ghost use Rattle.std.specs.Prelude.{IsTrue};
ghost use Rattle.line_model.specs.Motion.{IsMotion};

use crate::lists::{FAR, at, cell, narrow, put};
use crate::masks::only;
use collision_pairs::clash;
use hoist_base::Line;
use line_model::Motion;
use move_list::reaches;
use std::alloc::{AllocError, Global};

/// The least offset of a second start after a first one, and of the first after the second, in ticks.
#[derive(Clone, Copy)]
pub(crate) struct Apart {
    pub(crate) after: i32,
    pub(crate) before: i32,
}

/// Stands for "nothing is forbidden".
pub(crate) const FREE: Apart = Apart {
    after: i32::MIN,
    before: i32::MIN,
};

impl Apart {
    /// Whether nothing is forbidden.
    #[inline]
    pub(crate) fn is_free(self) -> bool {
        self.after == i32::MIN
    }

    /// What both forbid.
    #[inline]
    pub(crate) fn least(self, other: Apart) -> Apart {
        if self.is_free() || other.is_free() {
            return FREE;
        }
        Apart {
            after: self.after.min(other.after),
            before: self.before.min(other.before),
        }
    }
}

/// A motion that nothing asks for.
const STILL: Motion = Motion {
    from: 0,
    to: 0,
    lift: 0,
    lower: 0,
};

/// All motions of a line by their kind: a step with the tanks of its two visits. What two kinds forbid is looked up
/// from when both were learnt.
#[derive(Drop)]
pub(crate) struct Rides {
    hoists: usize,
    /// The motion of each kind.
    motions: Vec<Motion>,
    /// The first kind of each step.
    firsts: Vec<u32>,
    /// The hoists that reach each kind.
    reach: Vec<u8>,
    /// Whether the offsets of a kind are known.
    known: Vec<bool>,
    /// What two kinds forbid, by the difference of their hoists.
    spans: Vec<Apart>,
    /// For two kinds: the greatest sum of both least offsets.
    wide: Vec<i32>,
}

fn position(line: &Line, stage: usize, choice: usize) -> u32 {
    let Some(stage) = line.stages().get(stage) else {
        return 0;
    };
    let tank = at(stage.tanks.as_slice(), choice, 0) as usize;
    match line.tanks().get(tank) {
        Some(tank) => tank.at,
        None => 0,
    }
}

/// How many tanks a stage may use.
pub(crate) fn tank_count(line: &Line, stage: usize) -> usize {
    match line.stages().get(stage) {
        Some(stage) => stage.tanks.as_slice().len(),
        None => 0,
    }
}

fn motion_between(line: &Line, step: usize, from: usize, to: usize) -> Motion {
    let next = step.wrapping_add(1);
    let Some(here) = line.stages().get(step) else {
        return STILL;
    };
    let Some(there) = line.stages().get(next) else {
        return STILL;
    };
    Motion {
        from: position(line, step, from),
        to: position(line, next, to),
        lift: here.lift,
        lower: there.lower,
    }
}

fn is_motion(a: Motion) -> bool
    ensures { IsTrue result → IsMotion a }
{
    a.from <= 1000 && a.to <= 1000 && 1 <= a.lift && a.lift <= 500 && 1 <= a.lower && a.lower <= 500
}

/// The hoists that reach a motion.
fn reach_of(line: &Line, a: Motion) -> u8 {
    let mut mask = 0;
    if !is_motion(a) {
        return 0;
    }
    for h in 0..line.hoists() {
        if reaches(line, h, a) {
            mask |= only(h as usize);
        }
    }
    mask
}

/// What two motions forbid with their hoists `i - (hoists - 1)` apart.
fn span_of(line: &Line, a: Motion, b: Motion, i: usize) -> Apart {
    let hoists = line.hoists();
    let last = hoists as usize;
    let ha = last.saturating_sub(i.saturating_add(1));
    let hb = i.saturating_add(1).saturating_sub(last);
    if !is_motion(a) || !is_motion(b) || ha >= last || hb >= last {
        return FREE;
    }
    match clash(line, a, ha as u32, b, hb as u32) {
        Some(span) => Apart {
            after: narrow(span.after),
            before: narrow(span.before),
        },
        None => FREE,
    }
}

impl Rides {
    /// The motions of a line; no offset is known.
    pub(crate) fn new(alloc: Global, line: &Line) -> Result<Rides, AllocError> {
        let hoists = line.hoists() as usize;
        let mut rides = Rides {
            hoists,
            motions: Vec::new(alloc),
            firsts: Vec::new(alloc),
            reach: Vec::new(alloc),
            known: Vec::new(alloc),
            spans: Vec::new(alloc),
            wide: Vec::new(alloc),
        };
        for step in 0..line.stages().len().saturating_sub(1) {
            let first = (rides.motions.len() & 0xffff) as u32;
            rides.firsts.push(first)?;
            rides.add_step(line, step)?;
        }
        let count = rides.motions.len();
        let width = hoists.wrapping_mul(2).wrapping_sub(1);
        rides.known.resize(count, false)?;
        rides.wide.resize(count.wrapping_mul(count), FAR)?;
        let places = count.wrapping_mul(count).wrapping_mul(width);
        rides.spans.resize(places, FREE)?;
        Ok(rides)
    }

    fn add_step(&mut self, line: &Line, step: usize) -> Result<(), AllocError> {
        for from in 0..tank_count(line, step) {
            for to in 0..tank_count(line, step.wrapping_add(1)) {
                let motion = motion_between(line, step, from, to);
                self.motions.push(motion)?;
                self.reach.push(reach_of(line, motion))?;
            }
        }
        Ok(())
    }

    /// The kind of a step between the tanks of its two visits, of which the second stage may use `count`.
    pub(crate) fn kind(&self, step: usize, from: usize, to: usize, count: usize) -> usize {
        let first = at(&self.firsts, step, 0) as usize;
        first.wrapping_add(cell(count, from, to))
    }

    /// The motion of a kind.
    pub(crate) fn motion(&self, kind: usize) -> Motion {
        at(&self.motions, kind, STILL)
    }

    /// The ticks that a kind lasts.
    pub(crate) fn length(&self, kind: usize) -> i64 {
        let a = self.motion(kind);
        i64::from(a.lift) + i64::from(a.from.abs_diff(a.to)) + i64::from(a.lower)
    }

    /// The hoists that reach a kind.
    pub(crate) fn reach(&self, kind: usize) -> u8 {
        at(&self.reach, kind, 0)
    }

    /// Where what kind `a` and kind `b` on hoist `hb` forbid stands; that with hoist h of `a` stands h places before.
    #[inline]
    pub(crate) fn place(&self, a: usize, b: usize, hb: usize) -> usize {
        let last = self.hoists.wrapping_sub(1);
        let width = self.hoists.wrapping_add(last);
        let pair = cell(self.motions.len(), a, b);
        cell(width, pair, hb.wrapping_add(last))
    }

    /// What stands `ha` places before a place.
    #[inline]
    pub(crate) fn before(&self, place: usize, ha: usize) -> Apart {
        at(&self.spans, place.wrapping_sub(ha), FREE)
    }

    /// The greatest sum of both offsets of two kinds, whatever their hoists.
    #[inline]
    pub(crate) fn wide(&self, a: usize, b: usize) -> i32 {
        at(&self.wide, cell(self.motions.len(), a, b), FAR)
    }

    /// Learns the offsets between a kind and all that are known.
    pub(crate) fn learn(&mut self, line: &Line, kind: usize) {
        if at(&self.known, kind, true) {
            return;
        }
        put(&mut self.known, kind, true);
        for other in 0..self.motions.len() {
            if at(&self.known, other, false) {
                self.learn_pair(line, kind, other);
                self.learn_pair(line, other, kind);
            }
        }
    }

    fn learn_pair(&mut self, line: &Line, a: usize, b: usize) {
        let width = self.hoists.wrapping_mul(2).wrapping_sub(1);
        let pair = cell(self.motions.len(), a, b);
        let mut most = FAR;
        for i in 0..width {
            let span = span_of(line, self.motion(a), self.motion(b), i);
            put(&mut self.spans, cell(width, pair, i), span);
            if !span.is_free() {
                most = most.max(span.after.wrapping_add(span.before));
            }
        }
        put(&mut self.wide, pair, most);
    }
}

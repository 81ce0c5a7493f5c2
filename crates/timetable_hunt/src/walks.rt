//! Greatest weights of walks, and closed walks that gain.

use crate::lists::{at, put};
use longest_path::Arc;
use std::alloc::{AllocError, Global};

/// Stands for "no walk comes here yet".
const NEVER: i64 = -1_000_000_000_000_000;

/// Stands for "no link".
const NONE: u32 = u32::MAX;

/// A constraint, and the number of the pair whose order it says.
#[derive(Clone, Copy)]
pub(crate) struct Link {
    pub(crate) arc: Arc,
    pub(crate) pair: u32,
}

/// Stands where a number is no link's.
const NO_LINK: Link = Link {
    arc: Arc {
        from: 0,
        to: 0,
        w: 0,
        q: 0,
    },
    pair: NONE,
};

/// What the constraints ask at a period.
#[derive(Clone, Copy)]
pub(crate) enum Walk {
    /// They can be met; the ticks stand in `ticks`.
    Met,
    /// A closed walk gains so much at the period, and so much more with each tick of it.
    Gains(i64, i64),
}

/// Links, and room to walk along them.
#[derive(Drop)]
pub(crate) struct Walks {
    pub(crate) links: Vec<Link>,
    /// The greatest weight of a walk from the first move to each.
    pub(crate) ticks: Vec<i64>,
    /// The link by which that walk came.
    came: Vec<u32>,
    mark: Vec<u32>,
    /// The pairs of the last closed walk that gained.
    pub(crate) pairs: Vec<u32>,
}

impl Walks {
    /// No links, between so many moves.
    pub(crate) fn new(alloc: Global, moves: usize) -> Result<Walks, AllocError> {
        Ok(Walks {
            links: Vec::new(alloc),
            ticks: vec![in alloc; NEVER; moves]?,
            came: vec![in alloc; NONE; moves]?,
            mark: vec![in alloc; 0; moves]?,
            pairs: Vec::new(alloc),
        })
    }

    /// Adds a link; `pair` is `u32::MAX` for one that says no order.
    pub(crate) fn add(&mut self, arc: Arc, pair: u32) -> Result<(), AllocError> {
        self.links.push(Link { arc, pair })?;
        Ok(())
    }

    /// Looks whether the links can be met at a period. It takes as many passes as it needs, and tells how many.
    pub(crate) fn walk(&mut self, period: i64) -> Result<(Walk, u64), AllocError> {
        self.ticks.fill(NEVER);
        self.came.fill(NONE);
        put(&mut self.ticks, 0, 0);
        for pass in 1..u64::MAX {
            if !self.pass(period) {
                return Ok((Walk::Met, pass));
            }
            if let Some(place) = self.closed() {
                return Ok((self.gain(place, period)?, pass));
            }
        }
        Ok((Walk::Met, 0))
    }

    // One pass over all links; whether a tick rose.
    fn pass(&mut self, period: i64) -> bool {
        let mut rose = false;
        for i in 0..self.links.len() {
            let Some(link) = self.links.get(i) else {
                break;
            };
            let arc = link.arc;
            let from = at(&self.ticks, arc.from as usize, NEVER);
            let weight = arc.w.wrapping_add(arc.q.wrapping_mul(period));
            let tick = from.wrapping_add(weight);
            if from > NEVER && tick > at(&self.ticks, arc.to as usize, i64::MAX) {
                put(&mut self.ticks, arc.to as usize, tick);
                put(&mut self.came, arc.to as usize, (i & 0xffff_ffff) as u32);
                rose = true;
            }
        }
        rose
    }

    // A move on a closed walk of the links by which walks came.
    fn closed(&mut self) -> Option<usize> {
        self.mark.fill(0);
        for begin in 0..self.mark.len() {
            if let Some(place) = self.closed_from(begin) {
                return Some(place);
            }
        }
        None
    }

    fn closed_from(&mut self, begin: usize) -> Option<usize> {
        let name = (begin & 0xffff) as u32 + 1;
        let mut place = begin;
        for _step in 0..self.mark.len().wrapping_add(1) {
            let mark = at(&self.mark, place, u32::MAX);
            if mark != 0 {
                return if mark == name { Some(place) } else { None };
            }
            put(&mut self.mark, place, name);
            match self.before(place) {
                Some(link) => place = link.arc.from as usize,
                None => return None,
            }
        }
        None
    }

    fn before(&self, place: usize) -> Option<Link> {
        match at(&self.came, place, NONE) {
            NONE => None,
            i => Some(at(&self.links, i as usize, NO_LINK)),
        }
    }

    // What the closed walk through a move gains; its pairs are kept.
    fn gain(&mut self, goal: usize, period: i64) -> Result<Walk, AllocError> {
        self.pairs.clear();
        let (mut weight, mut slope) = (0i64, 0i64);
        let mut place = goal;
        for _step in 0..self.mark.len() {
            let Some(link) = self.before(place) else {
                break;
            };
            weight = weight.wrapping_add(link.arc.w);
            slope = slope.wrapping_add(link.arc.q);
            if link.pair != NONE {
                self.pairs.push(link.pair)?;
            }
            place = link.arc.from as usize;
            if place == goal {
                break;
            }
        }
        let gain = weight.wrapping_add(slope.wrapping_mul(period));
        Ok(Walk::Gains(gain, slope))
    }
}

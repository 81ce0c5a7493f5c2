//! Hoists by zones of the track.

use crate::lists::{at, natural, put};
use crate::masks::{only, with_neighbours};
use crate::planner::Planner;
use std::alloc::AllocError;

impl Planner {
    /// Hoists by zones of about equal load with borders by chance; where `soft`, at times a neighbour too.
    pub(crate) fn zones(&mut self, soft: bool) -> Result<Vec<u8>, AllocError> {
        let shares = self.shares()?;
        let by_place = self.moves_by_place()?;
        let mut loads = 0i64;
        for number in 0..self.seeker.course.moves {
            loads = loads.wrapping_add(self.load(number));
        }
        let all = shares
            .iter()
            .fold(0i64, |sum, share| sum.wrapping_add(*share));
        let mut masks = vec![in self.seeker.alloc; 0; self.seeker.course.moves]?;
        let (mut seen, mut hoist, mut edge) = (0i64, 0usize, at(&shares, 0, 0));
        for key in &by_place {
            let number = (*key & 255) as usize;
            let load = self.load(number);
            let middle = seen.wrapping_mul(2).wrapping_add(load).wrapping_mul(all);
            seen = seen.wrapping_add(load);
            for next in hoist.wrapping_add(1)..shares.len() {
                if middle <= edge.wrapping_mul(2).wrapping_mul(loads) {
                    break;
                }
                hoist = next;
                edge = edge.wrapping_add(at(&shares, next, 0));
            }
            let mask = self.zone(number, hoist, soft);
            put(&mut masks, number, mask);
        }
        Ok(masks)
    }

    // A number from 60 to 139 for each hoist.
    fn shares(&mut self) -> Result<Vec<i64>, AllocError> {
        let mut shares = Vec::new(self.seeker.alloc);
        for _hoist in 0..self.seeker.course.hoists {
            let share = (self.seeker.chance.below(80) & 127) as i64;
            shares.push(share.wrapping_add(60))?;
        }
        Ok(shares)
    }

    // The moves from the start of the track to its end, each in the last eight bits of a key.
    fn moves_by_place(&self) -> Result<Vec<u64>, AllocError> {
        let mut keys = Vec::new(self.seeker.alloc);
        for number in 0..self.seeker.course.moves {
            let (from, to) = self.seeker.course.places(number);
            let step = number % self.seeker.course.steps.max(1);
            let middle = natural(from.wrapping_add(to)) as u64;
            let place = middle.wrapping_mul(256).wrapping_add(step as u64 & 255);
            keys.push(place.wrapping_mul(256) | number as u64 & 255)?;
        }
        keys.sort()?;
        Ok(keys)
    }

    // The ticks of a move and of its hoist's way back.
    fn load(&self, number: usize) -> i64 {
        let (from, to) = self.seeker.course.places(number);
        let way = from.max(to).wrapping_sub(from.min(to));
        self.seeker.course.length(number).wrapping_add(way)
    }

    // The hoists of a move in a hoist's zone.
    fn zone(&mut self, number: usize, hoist: usize, soft: bool) -> u8 {
        let own = only(hoist);
        let mut mask = own;
        if soft && self.seeker.chance.once_in(2) {
            mask |= with_neighbours(own) & own.wrapping_neg();
        }
        if soft && self.seeker.chance.once_in(2) {
            mask |= with_neighbours(own) & own.wrapping_sub(1);
        }
        let reach = at(&self.seeker.course.reach, number, 0);
        if mask & reach == 0 {
            reach
        } else {
            mask & reach
        }
    }
}

//! Closed walks with their sums.

ghost use Rattle.std.specs.Prelude.{◌≡◌, ℕ, ◌-◌, ◌≤◌, ◌<◌, length, slice_index, IfOk};
ghost use Rattle.cycle_walk.specs.Closed.{walk_of, back_to, HasSmallSums};
ghost use Rattle.cycle_walk.specs.Refuting.{sums_of};

use crate::Sums;
use longest_path::System;
use std::alloc::{AllocError, Global};
use std::marker::Model;

/// A closed walk: the numbers of its constraints in walking order, and their sums.
#[derive(Debug, Drop)]
pub struct Walk {
    arcs: Vec<u32>,
    sums: Sums,
}

impl Model for Walk {
    ghost use Rattle.cycle_walk.specs.Closed.{WalkData};

    ghost Value = { WalkData };

    ghost view = { λ a. record { arcs = a.arcs.items; w = a.sums.w; q = a.sums.q } };
}

impl Walk {
    /// The numbers of the constraints, in walking order.
    pub fn arcs(&self) -> &[u32]
        ensures { result.now ≡ self.now.arcs }
    {
        self.arcs.as_slice()
    }

    /// The sums of w and of q of the constraints.
    pub fn sums(&self) -> Sums
        ensures { result ≡ sums_of self.now }
    {
        self.sums
    }
}

// The constraints of a way back from the one before `end` back to the one at `first`, with their sums.
pub(crate) fn walk_along(
    alloc: Global,
    s: &System,
    back: &[u32],
    first: usize,
    end: usize,
) -> Result<Walk, AllocError>
    requires first { first ≤ end }
    requires end { (end ≤ length back.now) × (end ≤ 124) }
    requires arcs { (t : ℕ) → t < end → slice_index back.now t < length s.now.arcs }
    ensures small { IfOk result HasSmallSums }
    ensures value { IfOk result (λ walk. walk ≡ walk_of s.now (back_to (slice_index back.now) first (end - first))) }
{
    let mut arcs = Vec::with_capacity(alloc, end - first)?;
    let mut w = 0;
    let mut q = 0;
    let mut t = end;
    while t > first {
        t -= 1;
        let k = back[t];
        let a = s.arcs()[k as usize];
        w += a.w;
        q += a.q;
        arcs.push(k)?;
    }
    let sums = Sums { w, q };
    Ok(Walk { arcs, sums })
}

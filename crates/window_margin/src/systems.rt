//! The constraints of a margin as systems.

ghost use Rattle.std.specs.Prelude.{◌≡◌, ℕ, ◌≤◌, ◌*ℤ◌, pos, neg_ℤ, unsigned_abs, IfOk};
ghost use Rattle.window_margin.specs.Systems.{AreMarginArcs};
ghost use Rattle.window_margin.specs.Arcs as listed;

use hoist_base::Line;
use longest_path::{Arc, System};
use std::alloc::{AllocError, Global};

// A constraint with the margin plus 1 in the place of the margin.
fn from_one(a: Arc) -> Arc
    requires w { unsigned_abs a.w ≤ 9000000 }
    requires q { unsigned_abs a.q ≤ 1 }
    ensures { result ≡ listed.from_one a }
{
    Arc {
        from: a.from,
        to: a.to,
        w: a.w - a.q,
        q: a.q,
    }
}

/// The system with the margin plus 1 in the place of the period.
pub(crate) fn margin_system(alloc: Global, line: &Line, arcs: &[Arc]) -> Result<System, AllocError>
    requires { AreMarginArcs line.now arcs.now }
    ensures { IfOk result (λ s. s ≡ listed.margin_system line.now arcs.now) }
{
    let mut list = Vec::with_capacity(alloc, arcs.len())?;
    for k in 0..arcs.len() {
        list.push(from_one(arcs[k]))?;
    }
    Ok(System::new(line.move_count(), list))
}

// A share of so many ticks.
fn times(share: i64, ticks: u32) -> i64
    requires share { unsigned_abs share ≤ 1 }
    requires ticks { ticks ≤ 20000 }
    ensures value { result ≡ share *ℤ pos ticks }
    ensures small { unsigned_abs result ≤ 20000 }
{
    share * i64::from(ticks)
}

// A constraint with a number of ticks less the margin in the place of the margin.
fn turned(a: Arc, ticks: u32) -> Arc
    requires w { unsigned_abs a.w ≤ 9000000 }
    requires q { unsigned_abs a.q ≤ 1 }
    requires ticks { ticks ≤ 20000 }
    ensures { result ≡ listed.turned ticks a }
{
    Arc {
        from: a.from,
        to: a.to,
        w: a.w + times(a.q, ticks),
        q: -a.q,
    }
}

/// The system with a number of ticks less the margin in the place of the period.
pub(crate) fn turned_system(
    alloc: Global,
    line: &Line,
    ticks: u32,
    arcs: &[Arc],
) -> Result<System, AllocError>
    requires arcs { AreMarginArcs line.now arcs.now }
    requires ticks { ticks ≤ 20000 }
    ensures { IfOk result (λ s. s ≡ listed.turned_system line.now ticks arcs.now) }
{
    let mut list = Vec::with_capacity(alloc, arcs.len())?;
    for k in 0..arcs.len() {
        list.push(turned(arcs[k], ticks))?;
    }
    Ok(System::new(line.move_count(), list))
}

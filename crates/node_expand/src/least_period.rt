// The least feasible period of a path.
ghost use Rattle.std.specs.Prelude.{◌≡◌, ℕ, ◌<◌, ◌≤◌, length, map, get_or, option_map, IfOk, IfSome};
ghost use Rattle.hoist_base.specs.Valid.{IsLine};
ghost use Rattle.longest_path.specs.Bounds.{IsPeriod, IsCap};
ghost use Rattle.longest_path.specs.System.{IsLeastSolution};
ghost use Rattle.cycle_walk.specs.Closed.{IsFeasible};
ghost use Rattle.choice_tree.specs.declared.constraint.Constraint.{Constraint};
ghost use Rattle.path_constraints.specs.Places.{system_below};
ghost use Rattle.path_constraints.specs.Ticks.{AreTicks};
ghost use Rattle.node_expand.specs.PathSystems.{IsAt};
ghost use Rattle.node_expand.specs.Climbs.{IsPathClimb};

use crate::path_system::PathSystem;
use crate::solved::Ticks;
use choice_tree::{Decision, Proof};
use cycle_walk::{Climbed, Walk, climb_in};
use hoist_base::Line;
use longest_path::{LeastTicks, Room, least_in};
use std::alloc::{AllocError, Global};

/// The least feasible period of a path, the names of a walk that refutes every smaller one, and the least ticks there.
///
/// It is the same under every cap above the period, and for every path with the same constraints.
#[derive(Debug, Drop)]
pub(crate) struct LeastPeriod {
    pub(crate) period: u32,
    pub(crate) low: Proof,
    pub(crate) ticks: Ticks,
}

impl LeastPeriod {
    /// The same once more.
    pub(crate) fn copied(&self, alloc: Global) -> Result<LeastPeriod, AllocError>
        ensures { IfOk result (λ copy. copy ≡ self.now) }
    {
        let low = self.low.copied(alloc)?;
        let ticks = self.ticks.copied(alloc)?;
        Ok(LeastPeriod {
            period: self.period,
            low,
            ticks,
        })
    }
}

/// What the climb over a path's system ends at.
#[derive(Debug, Drop)]
pub(crate) enum PathClimb {
    /// No period below the cap is feasible; `low` and `high` together refute them all.
    Shut {
        low: Option<Proof>,
        high: Option<Proof>,
    },
    /// The least feasible period is below the cap.
    Least(LeastPeriod),
}

// The names of a walk that may be missing.
fn proof_of(alloc: Global, at: &PathSystem, walk: Option<Walk>) -> Result<Option<Proof>, AllocError>
    requires { IfSome walk (λ w. (k : ℕ) → k < length w.arcs → get_or w.arcs k 0 < length at.now.names.items) }
    ensures { IfOk result (λ proof. proof ≡ option_map
        (λ w. map (λ k. get_or at.now.names.items k (Constraint.Entry 0)) w.arcs) walk) }
{
    match walk {
        None => Ok(None),
        Some(walk) => Ok(Some(at.proof_of(alloc, &walk)?)),
    }
}

// The least ticks of all moves at a feasible period of a path.
fn ticks_at(
    alloc: Global,
    room: &mut Room,
    at: &PathSystem,
    line: &Line,
    path: &[Decision],
    period: u32,
) -> Result<Ticks, AllocError>
    requires valid { IsLine line.now }
    requires at { IsAt line.now path.now at.now }
    requires period { IsPeriod period }
    requires feasible { IsFeasible (system_below line.now path.now) period }
    ensures least { IfOk result (λ ticks. IsLeastSolution (system_below line.now path.now) period ticks) }
    ensures ticks { IfOk result (λ ticks. AreTicks line.now ticks) }
{
    match least_in(alloc, room, &at.system, period)? {
        LeastTicks::Feasible(ticks) => Ok(Ticks::from_vec(ticks)),
        LeastTicks::Positive => unreachable!(),
    }
}

/// Climbs over the system of a path that it is at.
pub(crate) fn climb_at(
    alloc: Global,
    room: &mut Room,
    at: &PathSystem,
    line: &Line,
    path: &[Decision],
    cap: u32,
) -> Result<PathClimb, AllocError>
    requires valid { IsLine line.now }
    requires at { IsAt line.now path.now at.now }
    requires cap { IsCap cap }
    ensures { IfOk result (λ x. IsPathClimb line.now path.now cap x) }
{
    let _nodes = at.system.nodes();
    match climb_in(alloc, room, &at.system, cap)? {
        Climbed::Shut { low, high } => {
            let low = proof_of(alloc, at, low)?;
            let high = proof_of(alloc, at, high)?;
            Ok(PathClimb::Shut { low, high })
        }
        Climbed::Floor { period, low } => {
            let Some(walk) = low else { unreachable!() };
            let low = at.proof_of(alloc, &walk)?;
            let ticks = ticks_at(alloc, room, at, line, path, period)?;
            Ok(PathClimb::Least(LeastPeriod { period, low, ticks }))
        }
    }
}

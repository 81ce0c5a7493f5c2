//! The climb to the least feasible period.

ghost use Rattle.std.specs.Prelude.{◌≡◌, ℕ, ◌≤◌, ◌<◌, length, IfOk};
ghost use Rattle.longest_path.specs.Bounds.{IsCap};
ghost use Rattle.longest_path.specs.System.{IsSystem};
ghost use Rattle.longest_path.specs.Room.{HasRoom};
ghost use Rattle.cycle_walk.specs.Links.{AreLinks};
ghost use Rattle.cycle_walk.specs.Closed.{IsClosedWalk, HasSmallSums};
ghost use Rattle.cycle_walk.specs.Climb.{climbed, IsLeastFeasible, AreRefuted, AllWalks};

use crate::Walk;
use crate::closed_walks::walk_within;
use crate::links::link;
use longest_path::{Room, System};
use std::alloc::{AllocError, Global};

/// What `climb` answers.
#[derive(Debug, Drop)]
pub enum Climbed {
    /// The least feasible period below the cap. `low` refutes all periods below it, and is missing where it is 1.
    Floor {
        period: u32,
        low: Option<Walk>,
    },
    /// No period below the cap is feasible: `low` refutes those up to some period, `high` those from there on.
    Shut {
        low: Option<Walk>,
        high: Option<Walk>,
    },
}

fn climb_within(alloc: Global, s: &System, cap: u32, room: &mut Room) -> Result<Climbed, AllocError>
    requires valid { IsSystem s.now }
    requires cap { IsCap cap }
    requires room { HasRoom s.now room.old }
    requires links { AreLinks s.now room.old.firsts.items room.old.nexts.items }
    ensures climb { IfOk result (λ answer. answer ≡ climbed s.now cap) }
    ensures least { IfOk result (λ answer. IsLeastFeasible s.now cap answer) }
    ensures refuted { IfOk result (λ answer. AreRefuted cap answer) }
    ensures closed { IfOk result (λ answer. AllWalks (IsClosedWalk s.now) answer) }
{
    let mut period = 1;
    let mut low = None;
    while period < cap {
        let found = walk_within(alloc, s, period, room)?;
        let Some(walk) = found else {
            return Ok(Climbed::Floor { period, low });
        };
        let sums = walk.sums();
        if !sums.falls() {
            return Ok(Climbed::Shut {
                low,
                high: Some(walk),
            });
        }
        period = sums.least_kept(cap);
        low = Some(walk);
    }
    Ok(Climbed::Shut { low, high: None })
}

/// The least feasible period below a cap, with the last walk that raised it, which refutes all periods below; or that
/// there is none, with walks that refute every period below the cap.
///
/// From period 1 on, each canonical closed walk with a q below 0 raises the period to the least one that it doesn't
/// refute; one with any other q refutes all later periods too and ends the climb. Each step costs one `closed_walk_in`.
/// The room is lent and serves again; beside it only the walks take memory.
pub fn climb_in(alloc: Global, room: &mut Room, s: &System, cap: u32) -> Result<Climbed, AllocError>
    requires { IsCap cap }
    ensures climb { IfOk result (λ answer. answer ≡ climbed s.now cap) }
    ensures least { IfOk result (λ answer. IsLeastFeasible s.now cap answer) }
    ensures refuted { IfOk result (λ answer. AreRefuted cap answer) }
    ensures closed { IfOk result (λ answer. AllWalks (IsClosedWalk s.now) answer) }
    ensures small { IfOk result (λ answer. AllWalks HasSmallSums answer) }
{
    room.fit(s)?;
    link(s, &mut room.firsts, &mut room.nexts);
    climb_within(alloc, s, cap, room)
}

/// `climb_in` in room of its own.
pub fn climb(alloc: Global, s: &System, cap: u32) -> Result<Climbed, AllocError>
    requires { IsCap cap }
    ensures climb { IfOk result (λ answer. answer ≡ climbed s.now cap) }
    ensures least { IfOk result (λ answer. IsLeastFeasible s.now cap answer) }
    ensures refuted { IfOk result (λ answer. AreRefuted cap answer) }
    ensures closed { IfOk result (λ answer. AllWalks (IsClosedWalk s.now) answer) }
    ensures small { IfOk result (λ answer. AllWalks HasSmallSums answer) }
{
    let mut room = Room::new(alloc);
    climb_in(alloc, &mut room, s, cap)
}

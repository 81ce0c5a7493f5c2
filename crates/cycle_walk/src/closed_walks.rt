//! The canonical closed walk at a period.

ghost use Rattle.std.specs.Prelude.{◌≡◌, ℕ, ◌-◌, ◌≤◌, ◌<◌, ◌↔◌, pos, false, length, IfOk, IfSome, IsTrue};
ghost use Rattle.longest_path.specs.Bounds.{IsWithinCap, IsPeriod};
ghost use Rattle.longest_path.specs.System.{Refutes};
ghost use Rattle.longest_path.specs.Rounds.{weights_at, number};
ghost use Rattle.longest_path.specs.Room.{HasRoom};
ghost use Rattle.cycle_walk.specs.Links.{AreLinks};
ghost use Rattle.cycle_walk.specs.Values.{value, AreValues};
ghost use Rattle.cycle_walk.specs.Closed.{Rises, closed_walk_of, IsFeasible, IsClosedWalk, HasSmallSums};

use crate::Walk;
use crate::going_back::{first_grown, go_back};
use crate::links::link;
use crate::walks::walk_along;
use longest_path::{Room, System, fill};
use std::alloc::{AllocError, Global};

// Zeros in the first n places.
fn clear(rows: &mut [i64], n: usize)
    requires { n ≤ length rows.old }
    ensures len { length rows.new ≡ length rows.old }
    ensures zero { (i : ℕ) → i < n → number rows.new i ≡ pos 0 }
{
    rows[..n].fill(0);
}

// Zeros in row 0 of a table.
fn begin(rows: &mut Vec<i64>, n: usize)
    requires { n ≤ length rows.old.items }
    ensures len { length rows.new.items ≡ length rows.old.items }
    ensures zero { (i : ℕ) → i < n → number rows.new.items i ≡ pos 0 }
{
    clear(rows, n);
}

// Fills the table with the walk values at a period, up to the first round that changes nothing: false there.
fn rises(s: &System, period: u32, room: &mut Room) -> bool
    requires period { IsWithinCap period }
    requires room { HasRoom s.now room.old }
    ensures room { HasRoom s.now room.new }
    ensures links { (room.new.firsts ≡ room.old.firsts) × (room.new.nexts ≡ room.old.nexts) }
    ensures rows { IsTrue result → AreValues s.now period s.now.nodes room.new.rows.items }
    ensures rises { IsTrue result → (i : ℕ) × (i < s.now.nodes) × Rises s.now (weights_at s.now period) i }
    ensures still { result ≡ false → (i : ℕ) → i < s.now.nodes
        → value s.now (weights_at s.now period) s.now.nodes i
        ≡ value s.now (weights_at s.now period) (s.now.nodes - 1) i }
{
    let n = s.nodes() as usize;
    begin(&mut room.rows, n);
    fill(s, period, room) == n
}

// The canonical closed walk at a period, in room that knows which constraints end at each node.
pub(crate) fn walk_within(
    alloc: Global,
    s: &System,
    period: u32,
    room: &mut Room,
) -> Result<Option<Walk>, AllocError>
    requires period { IsWithinCap period }
    requires room { HasRoom s.now room.old }
    requires links { AreLinks s.now room.old.firsts.items room.old.nexts.items }
    ensures room { HasRoom s.now room.new }
    ensures links { AreLinks s.now room.new.firsts.items room.new.nexts.items }
    ensures walk { IfOk result (λ walk. walk ≡ closed_walk_of s.now period) }
    ensures small { IfOk result (λ walk. IfSome walk HasSmallSums) }
{
    if !rises(s, period, room) {
        return Ok(None);
    }
    let start = first_grown(&room.rows, s.nodes() as usize);
    let turn = go_back(
        s,
        period,
        &room.rows,
        &room.firsts,
        &room.nexts,
        start as u32,
        &mut room.seen,
        &mut room.back,
    );
    let walk = walk_along(alloc, s, &room.back, turn.first as usize, turn.end as usize)?;
    Ok(Some(walk))
}

/// The canonical closed walk at a period, which shows that no ticks solve the system; None exactly where some do.
///
/// It relaxes round by round and stops at the first round that changes nothing; only where each round changes a node,
/// so that the period is infeasible, it goes back over the rows: one look at the constraints that end at a node for
/// each step, at most as many steps as nodes. The room is lent and serves again; beside it only the walk takes memory.
pub fn closed_walk_in(
    alloc: Global,
    room: &mut Room,
    s: &System,
    period: u32,
) -> Result<Option<Walk>, AllocError>
    requires period { IsPeriod period }
    ensures canonical { IfOk result (λ walk. walk ≡ closed_walk_of s.now period) }
    ensures none { IfOk result (λ walk. (walk ≡ None) ↔ IsFeasible s.now period) }
    ensures refutes { IfOk result (λ walk. IfSome walk (λ w. Refutes w.w w.q period)) }
    ensures closed { IfOk result (λ walk. IfSome walk (λ w. IsClosedWalk s.now w)) }
    ensures small { IfOk result (λ walk. IfSome walk HasSmallSums) }
{
    room.fit(s)?;
    link(s, &mut room.firsts, &mut room.nexts);
    let walk = walk_within(alloc, s, period, room)?;
    Ok(walk)
}

/// `closed_walk_in` in room of its own.
pub fn closed_walk(alloc: Global, s: &System, period: u32) -> Result<Option<Walk>, AllocError>
    requires period { IsPeriod period }
    ensures canonical { IfOk result (λ walk. walk ≡ closed_walk_of s.now period) }
    ensures none { IfOk result (λ walk. (walk ≡ None) ↔ IsFeasible s.now period) }
    ensures refutes { IfOk result (λ walk. IfSome walk (λ w. Refutes w.w w.q period)) }
    ensures closed { IfOk result (λ walk. IfSome walk (λ w. IsClosedWalk s.now w)) }
    ensures small { IfOk result (λ walk. IfSome walk HasSmallSums) }
{
    let mut room = Room::new(alloc);
    closed_walk_in(alloc, &mut room, s, period)
}

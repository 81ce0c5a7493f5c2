//! The pointwise least solution of a system.

ghost use Rattle.std.specs.Prelude.{◌≡◌, ℕ, ◌-◌, ◌*◌, ◌≤◌, ◌<◌, pos, length, IfOk};
ghost use Rattle.longest_path.specs.Bounds.{IsPeriod};
ghost use Rattle.longest_path.specs.System.{IsSystem, IsReached};
ghost use Rattle.longest_path.specs.Rounds.{number, IsTable};
ghost use Rattle.longest_path.specs.Answer.{IsLeastAnswer, KeepsWithin, HasTicksWithin};
ghost use Rattle.longest_path.specs.Start.{far};

use crate::settling::settle;
use crate::{Room, System};
use std::alloc::{AllocError, Global};

// Stands for a node that no walk has reached yet: below all that walks from node 0 bring, by more than walks bring
// back.
const FAR: i64 = -10_000_000_000_000_000;

/// What `least` answers: the least ticks, one a node, or that a closed walk gains and no ticks solve the system.
#[derive(Debug, Drop)]
pub enum LeastTicks {
    Feasible(Vec<i64>),
    Positive,
}

// The first row: 0 at node 0, and nothing reached beside it.
fn begin(row: &mut [i64])
    requires { 0 < length row.old }
    ensures len { length row.new ≡ length row.old }
    ensures start { number row.new 0 ≡ pos 0 }
    ensures others { (i : ℕ) → 0 < i → i < length row.old → number row.new i ≡ far }
{
    row.fill(FAR);
    row[0] = 0;
}

fn least_within(
    alloc: Global,
    s: &System,
    period: u32,
    rows: &mut [i64],
) -> Result<LeastTicks, AllocError>
    requires period { IsPeriod period }
    requires reached { (i : ℕ) → i < s.now.nodes → IsReached s.now i }
    requires table { IsTable s.now rows.old }
    ensures least { IfOk result (λ answer. IsLeastAnswer s.now period answer) }
    ensures within { IfOk result (λ answer. KeepsWithin s.now period answer) }
    ensures small { IfOk result (λ answer. HasTicksWithin 2500000000000000 answer) }
{
    let n = s.nodes() as usize;
    let (row, rest) = rows.split_at_mut(n);
    begin(row);
    if !settle(s, period, row, &mut rest[..n]) {
        return Ok(LeastTicks::Positive);
    }
    let ticks = Vec::from_slice(alloc, row)?;
    Ok(LeastTicks::Feasible(ticks))
}

/// The pointwise least ticks that solve a system at a period, with 0 at node 0, where node 0 reaches every node;
/// Positive where no ticks solve it.
///
/// It raises the ticks in place, pass by pass, and stops at the first pass that changes nothing: at most as many passes
/// as nodes, each of one step a constraint. The room is lent and serves again; beside it only the answer takes memory.
pub fn least_in(
    alloc: Global,
    room: &mut Room,
    s: &System,
    period: u32,
) -> Result<LeastTicks, AllocError>
    requires period { IsPeriod period }
    requires reached { (i : ℕ) → i < s.now.nodes → IsReached s.now i }
    ensures least { IfOk result (λ answer. IsLeastAnswer s.now period answer) }
    ensures within { IfOk result (λ answer. KeepsWithin s.now period answer) }
    ensures small { IfOk result (λ answer. HasTicksWithin 2500000000000000 answer) }
{
    room.fit(s)?;
    least_within(alloc, s, period, &mut room.rows)
}

/// `least_in` in room of its own.
pub fn least(alloc: Global, s: &System, period: u32) -> Result<LeastTicks, AllocError>
    requires period { IsPeriod period }
    requires reached { (i : ℕ) → i < s.now.nodes → IsReached s.now i }
    ensures least { IfOk result (λ answer. IsLeastAnswer s.now period answer) }
    ensures within { IfOk result (λ answer. KeepsWithin s.now period answer) }
    ensures small { IfOk result (λ answer. HasTicksWithin 2500000000000000 answer) }
{
    let mut room = Room::new(alloc);
    least_in(alloc, &mut room, s, period)
}

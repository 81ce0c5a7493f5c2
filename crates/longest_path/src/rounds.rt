//! Rounds of relaxation.

ghost use Rattle.std.specs.Prelude.{◌≡◌, ℕ, ◌+◌, ◌-◌, ◌*◌, ◌≤◌, ◌<◌, length, suc, false, IsTrue};
ghost use Rattle.std.specs.Prelude.{◌+ℤ◌, ◌<ℤ◌, ◌≤ℤ◌, pos, unsigned_abs};
ghost use Rattle.std.specs.Int.{int_max};
ghost use Rattle.longest_path.specs.Bounds.{IsWithinCap};
ghost use Rattle.longest_path.specs.Rounds.{weights_at, value_from, number, cell, IsTable, BeginsSmall, AreRows};
ghost use Rattle.longest_path.specs.Steps.{FitNodes, IsRound};
ghost use Rattle.longest_path.specs.Near.{HasNodes, AreSmall, IsNearest, IsMade};
ghost use Rattle.longest_path.specs.Room.{HasRoom};

use crate::packing::pack;
use crate::{Near, Room, Step, System};

// The greater of what a node has from itself and from one neighbour.
#[inline]
fn greater(now: i64, stay: i64, other: i64, weight: i64) -> i64
    requires row { (unsigned_abs now ≤ 40000000000000000) × (unsigned_abs other ≤ 40000000000000000) }
    requires weights { (unsigned_abs stay ≤ 100000000000000000) × (unsigned_abs weight ≤ 100000000000000000) }
    ensures value { result ≡ int_max (now +ℤ stay) (other +ℤ weight) }
    ensures small { unsigned_abs result ≤ 200000000000000000 }
{
    (now + stay).max(other + weight)
}

// The greatest of what a node has from itself, from the node before it, and from the node behind it.
#[inline]
fn greatest(now: i64, stay: i64, before: i64, rise: i64, behind: i64, fall: i64) -> i64
    requires row { (unsigned_abs now ≤ 40000000000000000) × (unsigned_abs before ≤ 40000000000000000)
        × (unsigned_abs behind ≤ 40000000000000000) }
    requires weights { (unsigned_abs stay ≤ 100000000000000000) × (unsigned_abs rise ≤ 100000000000000000)
        × (unsigned_abs fall ≤ 100000000000000000) }
    ensures value { result ≡ int_max (int_max (now +ℤ stay) (before +ℤ rise)) (behind +ℤ fall) }
    ensures small { unsigned_abs result ≤ 200000000000000000 }
{
    let most = greater(now, stay, before, rise);
    most.max(behind + fall)
}

// Brings each node between two others the greatest that near constraints bring it from `old`; the compiled loop takes
// several nodes at a time.
fn bring_between(near: &Near, old: &[i64], new: &mut [i64])
    requires some { 0 < length old.now }
    requires near { HasNodes (length old.now) near.now × AreSmall near.now }
    requires new { length new.old ≡ length old.now }
    requires small { (j : ℕ) → unsigned_abs (number old.now j) ≤ 40000000000000000 }
    ensures len { length new.new ≡ length old.now }
    ensures row { (i : ℕ) → 0 < i → suc i < length old.now
        → IsNearest (length old.now) near.now (number old.now) i (number new.new i) }
{
    let stay = near.stay.as_slice();
    let rise = near.rise.as_slice();
    let fall = near.fall.as_slice();
    for i in 1..old.len() - 1 {
        new[i] = greatest(old[i], stay[i], old[i - 1], rise[i], old[i + 1], fall[i]);
    }
}

// Brings the first and the last of several nodes the greatest that near constraints bring them from `old`.
fn bring_ends(near: &Near, old: &[i64], new: &mut [i64])
    requires several { 1 < length old.now }
    requires near { HasNodes (length old.now) near.now × AreSmall near.now }
    requires new { length new.old ≡ length old.now }
    requires small { (j : ℕ) → unsigned_abs (number old.now j) ≤ 40000000000000000 }
    ensures len { length new.new ≡ length old.now }
    ensures first { IsNearest (length old.now) near.now (number old.now) 0 (number new.new 0) }
    ensures last { (i : ℕ) → suc i ≡ length old.now
        → IsNearest (length old.now) near.now (number old.now) i (number new.new i) }
    ensures between { (i : ℕ) → 0 < i → suc i < length old.now → number new.new i ≡ number new.old i }
{
    let stay = near.stay.as_slice();
    let rise = near.rise.as_slice();
    let fall = near.fall.as_slice();
    let last = old.len() - 1;
    new[0] = greater(old[0], stay[0], old[1], fall[0]);
    new[last] = greater(old[last], stay[last], old[last - 1], rise[last]);
}

// Brings the only node what it has from itself.
fn bring_alone(near: &Near, old: &[i64], new: &mut [i64])
    requires one { length old.now ≡ 1 }
    requires near { HasNodes (length old.now) near.now × AreSmall near.now }
    requires new { length new.old ≡ length old.now }
    requires small { (j : ℕ) → unsigned_abs (number old.now j) ≤ 40000000000000000 }
    ensures len { length new.new ≡ length old.now }
    ensures row { IsNearest (length old.now) near.now (number old.now) 0 (number new.new 0) }
{
    let stay = near.stay.as_slice();
    new[0] = old[0] + stay[0];
}

// Brings each node of `new` the greatest that near constraints bring it from `old`.
fn bring_near(near: &Near, old: &[i64], new: &mut [i64])
    requires some { 0 < length old.now }
    requires near { HasNodes (length old.now) near.now × AreSmall near.now }
    requires new { length new.old ≡ length old.now }
    requires small { (j : ℕ) → unsigned_abs (number old.now j) ≤ 40000000000000000 }
    ensures len { length new.new ≡ length old.now }
    ensures row { (i : ℕ) → i < length old.now
        → IsNearest (length old.now) near.now (number old.now) i (number new.new i) }
{
    if old.len() == 1 {
        bring_alone(near, old, new);
        return;
    }
    bring_between(near, old, new);
    bring_ends(near, old, new);
}

// Brings each node of `new` the greatest that the first steps bring it from `old`, where that is more than it has.
fn bring(steps: &[Step], count: usize, old: &[i64], new: &mut [i64])
    requires steps { (count ≤ length steps.now) × FitNodes (length old.now) count steps.now }
    requires new { length new.old ≡ length old.now }
    requires small { (i : ℕ) → unsigned_abs (number old.now i) ≤ 40000000000000000 }
    requires begins { (i : ℕ) → i < length old.now → unsigned_abs (number new.old i) ≤ 200000000000000000 }
    ensures len { length new.new ≡ length old.now }
    ensures row { (i : ℕ) → i < length old.now
        → IsRound steps.now count (number old.now) i (number new.old i) (number new.new i) }
{
    for k in 0..count {
        let step = steps[k];
        let to = step.to as usize;
        let offer = old[step.from as usize] + step.weight;
        new[to] = new[to].max(offer);
    }
}

// Makes the row after `old`.
fn relax(near: &Near, steps: &[Step], count: usize, old: &[i64], new: &mut [i64])
    requires some { 0 < length old.now }
    requires near { HasNodes (length old.now) near.now × AreSmall near.now }
    requires steps { (count ≤ length steps.now) × FitNodes (length old.now) count steps.now }
    requires new { length new.old ≡ length old.now }
    requires small { (i : ℕ) → unsigned_abs (number old.now i) ≤ 40000000000000000 }
    ensures len { length new.new ≡ length old.now }
    ensures row { (i : ℕ) → i < length old.now
        → IsMade (length old.now) near.now steps.now count (number old.now) i (number new.new i) }
{
    bring_near(near, old, new);
    bring(steps, count, old, new);
}

// Whether a row differs from the one before.
pub(crate) fn has_changed(old: &[i64], new: &[i64]) -> bool
    requires { length new.now ≡ length old.now }
    ensures still { result ≡ false → (i : ℕ) → i < length old.now → number new.now i ≡ number old.now i }
    ensures changed { IsTrue result → (i : ℕ) × (i < length old.now) × (number new.now i ≡ number old.now i → ⊥) }
{
    for i in 0..old.len() {
        if new[i] != old[i] {
            return true;
        }
    }
    false
}

// Writes row m + 1 of the table from row m; true where a node grew.
fn next_row(
    s: &System,
    near: &Near,
    steps: &[Step],
    count: usize,
    rows: &mut [i64],
    m: usize,
) -> bool
    requires near { HasNodes s.now.nodes near.now × AreSmall near.now }
    requires stays { (i : ℕ) → i < s.now.nodes → pos 0 ≤ℤ number near.now.stay.items i }
    requires steps { (count ≤ length steps.now) × FitNodes s.now.nodes count steps.now }
    requires m { m < s.now.nodes }
    requires table { IsTable s.now rows.old }
    requires small { (i : ℕ) → i < s.now.nodes → unsigned_abs (cell s.now.nodes rows.old m i) ≤ 20000000000000000 }
    ensures table { IsTable s.now rows.new }
    ensures kept { (r i : ℕ) → r ≤ m → i < s.now.nodes → cell s.now.nodes rows.new r i ≡ cell s.now.nodes rows.old r i }
    ensures made { (i : ℕ) → i < s.now.nodes
        → IsMade s.now.nodes near.now steps.now count (cell s.now.nodes rows.old m) i
        (cell s.now.nodes rows.new (m + 1) i) }
    ensures still { result ≡ false → (i : ℕ) → i < s.now.nodes
        → cell s.now.nodes rows.new (m + 1) i ≡ cell s.now.nodes rows.old m i }
    ensures grown { IsTrue result → (i : ℕ) × (i < s.now.nodes)
        × (cell s.now.nodes rows.old m i <ℤ cell s.now.nodes rows.new (m + 1) i) }
{
    let n = s.nodes() as usize;
    let (done, rest) = rows.split_at_mut((m + 1) * n);
    relax(near, steps, count, &done[m * n..], &mut rest[..n]);
    has_changed(&done[m * n..], &rest[..n])
}

// Fills a table of rows round by round from its row 0, up to the first round that changes nothing.
fn fill_rows(
    s: &System,
    period: u32,
    near: &mut Near,
    steps: &mut [Step],
    rows: &mut [i64],
) -> usize
    requires period { IsWithinCap period }
    requires near { HasNodes s.now.nodes near.old }
    requires steps { length steps.old ≡ length s.now.arcs }
    requires table { IsTable s.now rows.old }
    requires small { BeginsSmall s.now rows.old }
    ensures near { HasNodes s.now.nodes near.new }
    ensures within { result ≤ s.now.nodes }
    ensures rows { AreRows s.now period (cell s.now.nodes rows.old 0) result rows.new }
    ensures still { result < s.now.nodes → (i : ℕ) → i < s.now.nodes
        → value_from s.now (weights_at s.now period) (cell s.now.nodes rows.old 0) (suc result) i
        ≡ value_from s.now (weights_at s.now period) (cell s.now.nodes rows.old 0) result i }
    ensures grown { result ≡ s.now.nodes → (i : ℕ) × (i < s.now.nodes)
        × (value_from s.now (weights_at s.now period) (cell s.now.nodes rows.old 0) (s.now.nodes - 1) i
        <ℤ value_from s.now (weights_at s.now period) (cell s.now.nodes rows.old 0) s.now.nodes i) }
{
    let count = pack(s, period, near, steps);
    let n = s.nodes() as usize;
    for m in 0..n {
        if !next_row(s, near, steps, count, rows, m) {
            return m;
        }
    }
    n
}

/// Fills the table of a room's rows round by round from row 0, and answers how many rounds changed a node before one
/// that changed none; at most as many rounds as there are nodes.
///
/// A round takes one step a constraint, and there are at most as many rounds as nodes; it takes no memory. The weights
/// are reckoned once.
pub fn fill(s: &System, period: u32, room: &mut Room) -> usize
    requires period { IsWithinCap period }
    requires room { HasRoom s.now room.old }
    requires small { BeginsSmall s.now room.old.rows.items }
    ensures room { HasRoom s.now room.new }
    ensures within { result ≤ s.now.nodes }
    ensures rows { AreRows s.now period (cell s.now.nodes room.old.rows.items 0) result room.new.rows.items }
    ensures still { result < s.now.nodes → (i : ℕ) → i < s.now.nodes
        → value_from s.now (weights_at s.now period) (cell s.now.nodes room.old.rows.items 0) (suc result) i
        ≡ value_from s.now (weights_at s.now period) (cell s.now.nodes room.old.rows.items 0) result i }
    ensures grown { result ≡ s.now.nodes → (i : ℕ) × (i < s.now.nodes)
        × (value_from s.now (weights_at s.now period) (cell s.now.nodes room.old.rows.items 0) (s.now.nodes - 1) i
        <ℤ value_from s.now (weights_at s.now period) (cell s.now.nodes room.old.rows.items 0) s.now.nodes i) }
    ensures links { (room.new.firsts ≡ room.old.firsts) × (room.new.nexts ≡ room.old.nexts) }
{
    fill_rows(s, period, &mut room.near, &mut room.steps, &mut room.rows)
}

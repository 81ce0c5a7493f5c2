//! Relaxation in place, which settles in a few passes where there are solutions.

ghost use Rattle.std.specs.Prelude.{◌≡◌, ℕ, ◌+◌, ◌≤◌, ◌<◌, ◌≤ℤ◌, ◌<ℤ◌, length, pos, false, unsigned_abs, IsTrue};
ghost use Rattle.longest_path.specs.Bounds.{IsWithinCap};
ghost use Rattle.longest_path.specs.System.{IsSystem, HasNoSolution};
ghost use Rattle.longest_path.specs.Rounds.{number};
ghost use Rattle.longest_path.specs.Steps.{IsRaised, IsSettled};

use crate::System;
use crate::rounds::has_changed;

// More than walks of as many constraints as there can be nodes bring any node.
const MOST: i64 = 20_000_000_000_000_000;

// Raises a row in place: each end, one after another, to what its constraint brings it.
fn raise(s: &System, period: u32, row: &mut [i64])
    requires valid { IsSystem s.now }
    requires period { IsWithinCap period }
    requires row { length row.old ≡ s.now.nodes }
    requires small { (i : ℕ) → i < s.now.nodes → unsigned_abs (number row.old i) ≤ 20000000000000000 }
    ensures len { length row.new ≡ length row.old }
    ensures row { IsRaised s.now period (length s.now.arcs) (number row.old) (number row.new) }
{
    let arcs = s.arcs();
    for k in 0..arcs.len() {
        let a = arcs[k];
        let to = a.to as usize;
        let offer = row[a.from as usize] + a.weight(period);
        row[to] = row[to].max(offer);
    }
}

#[inline]
fn is_above(value: i64, most: i64) -> bool
    ensures yes { IsTrue result → (most <ℤ value) }
    ensures no { result ≡ false → (value ≤ℤ most) }
{
    value > most
}

// Whether a number is more than walks can bring.
fn passes_most(row: &[i64]) -> bool
    ensures yes { IsTrue result → (i : ℕ) × (i < length row.now) × (pos 20000000000000000 <ℤ number row.now i) }
    ensures no { result ≡ false → (i : ℕ) → i < length row.now → number row.now i ≤ℤ pos 20000000000000000 }
{
    for i in 0..row.len() {
        if is_above(row[i], MOST) {
            return true;
        }
    }
    false
}

// Raises a row pass by pass until one changes nothing: true. False where no ticks solve the system, which as many
// passes as nodes show, or a number that no walks bring.
pub(crate) fn settle(s: &System, period: u32, row: &mut [i64], before: &mut [i64]) -> bool
    requires period { IsWithinCap period }
    requires row { length row.old ≡ s.now.nodes }
    requires before { length before.old ≡ s.now.nodes }
    requires small { (i : ℕ) → i < s.now.nodes → unsigned_abs (number row.old i) ≤ 10000000000000000 }
    ensures len { length row.new ≡ length row.old }
    ensures settled { IsTrue result → IsSettled s.now period (number row.old) row.new }
    ensures none { result ≡ false → HasNoSolution s.now period }
{
    for _m in 0..s.nodes() {
        before.copy_from_slice(row);
        raise(s, period, row);
        if !has_changed(before, row) {
            return true;
        }
        if passes_most(row) {
            return false;
        }
    }
    false
}

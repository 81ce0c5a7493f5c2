// The lowest paths.
ghost use Rattle.std.specs.Prelude.{
  ◌≡◌,
  ◌≢◌,
  ℕ,
  ◌≤◌,
  ◌<◌,
  ◌+◌,
  ◌*◌,
  ◌++◌,
  length,
  get_or,
  IfOk,
  IfSome,
  MatchBool,
  MatchOption,
  Some,
};
ghost use Rattle.hoist_base.specs.LineData.{move_count};
ghost use Rattle.hoist_base.specs.Routes.{IsRoute};
ghost use Rattle.hoist_base.specs.Valid.{IsLine};
ghost use Rattle.path_envelope.specs.Duties.{duties, HaveReach, Agree};
ghost use Rattle.path_envelope.specs.Envelope.{IsTraced};
ghost use Rattle.path_envelope.specs.Slots.{AreMoves, AreLayers, IsLastRow, held};

use crate::clash::first_clash;
use crate::duties::Duties;
use crate::point::Traced;
use crate::rows::sweep;
use crate::slots::write_hoist;
use hoist_base::{Line, Route};
use std::alloc::{AllocError, Global};

/// The lowest paths of the hoists through all that their moves fix, or the first two fixed points that contradict one
/// another.
///
/// A move fixes its hoist at each of its ticks, its end too, and again each period. Two of these points contradict one
/// another where no positions that keep to the track go through both. The answer is then the first point of the starts
/// as given, by hoist, then by move, then by tick, that contradicts one, and the first that it contradicts, in its
/// nearest copy.
pub fn paths(
    alloc: Global,
    line: &Line,
    route: &Route,
    period: u32,
    starts: &[u64],
    hoists: &[u32],
) -> Result<Traced, AllocError>
    requires route { IsRoute line.now route.now }
    requires period { (1 ≤ period) × (period ≤ 20000) }
    requires starts { (length starts.now ≡ move_count line.now) × ((i : ℕ) → get_or starts.now i 0 ≤ 1000000000) }
    requires hoists { length hoists.now ≡ move_count line.now }
    requires reach { HaveReach line.now (duties line.now route.now period starts.now hoists.now) }
    ensures traced { IfOk result (λ answer. IsTraced line.now
        (duties line.now route.now period starts.now hoists.now) answer) }
{
    let asked = Duties {
        line,
        route,
        period,
        starts,
        hoists,
    };
    let width = period as usize;
    let mut rows = Vec::with_capacity(alloc, line.hoists() as usize * width)?;
    let mut table = vec![in alloc; None; width]?;
    let mut row = vec![in alloc; 0; width]?;
    for h in 0..line.hoists() {
        if !write_row(asked, h, &rows, &mut table, &mut row) {
            return Ok(clashing(asked));
        }
        rows.extend_from_slice(&row)?;
    }
    Ok(Traced::Made(rows))
}

// The first two fixed points that contradict one another, where some do.
fn clashing(asked: Duties) -> Traced
    requires moves { AreMoves asked.line.now asked.route.now asked.period asked.starts.now asked.hoists.now }
    requires some { Agree asked.line.now
        (duties asked.line.now asked.route.now asked.period asked.starts.now asked.hoists.now) → ⊥ }
    ensures { IsTraced asked.entry.line.now
        (duties asked.entry.line.now asked.entry.route.now asked.entry.period asked.entry.starts.now
        asked.entry.hoists.now) result }
{
    match first_clash(asked) {
        Some((a, b)) => Traced::Clashing { a, b },
        None => unreachable!(),
    }
}

// Writes the lowest row of a hoist above those of the hoists below; false where two fixed points contradict one
// another.
fn write_row(
    asked: Duties,
    h: u32,
    rows: &[u32],
    table: &mut [Option<u32>],
    row: &mut [u32],
) -> bool
    requires moves { AreMoves asked.line.now asked.route.now asked.period asked.starts.now asked.hoists.now }
    requires valid { IsLine asked.line.now }
    requires hoist { h < asked.line.now.hoists }
    requires rows { AreLayers asked.line.now
        (duties asked.line.now asked.route.now asked.period asked.starts.now asked.hoists.now) h rows.now }
    requires table { length table.old ≡ asked.period }
    requires row { length row.old ≡ asked.period }
    ensures layers { let p = duties asked.entry.line.now asked.entry.route.now asked.entry.period asked.entry.starts.now
        asked.entry.hoists.now in MatchBool result (AreLayers asked.entry.line.now p (h + 1) (rows.now ++ row.new))
        (Agree asked.entry.line.now p → ⊥) }
    ensures table { length table.new ≡ asked.entry.period }
    ensures row { length row.new ≡ asked.entry.period }
{
    if !write_hoist(asked, h, table) {
        return false;
    }
    let low = row_below(rows, asked.period, h);
    sweep(asked.line, asked.period, h, table, low, row);
    goes_through(table, row)
}

// The row of the hoist below, if there is one.
fn row_below(rows: &[u32], period: u32, h: u32) -> Option<&[u32]>
    requires { length rows.now ≡ h * period }
    ensures { MatchOption result (h ≡ 0) (λ low. IsLastRow rows.now period h low.now) }
{
    if h == 0 {
        None
    } else {
        Some(&rows[(h - 1) as usize * period as usize..])
    }
}

// Whether a row goes through every position of a table.
fn goes_through(table: &[Option<u32>], row: &[u32]) -> bool
    requires { length table.now ≡ length row.now }
    ensures { MatchBool result ((s : ℕ) → s < length row.now
        → IfSome (held table.now s) (λ at. get_or row.now s 0 ≡ at))
        ((s : ℕ) × (at : ℕ) × (s < length row.now) × (held table.now s ≡ Some at) × (get_or row.now s 0 ≢ at)) }
{
    for t in 0..row.len() {
        if let Some(at) = table[t] {
            if row[t] != at {
                return false;
            }
        }
    }
    true
}

// The least row of one hoist.
ghost use Rattle.std.specs.Prelude.{◌≡◌, ℕ, ◌≤◌, ◌<◌, length, get_or, IfSome};
ghost use Rattle.std.specs.Option.{option_map};
ghost use Rattle.path_envelope.specs.Rows.{IsRaised, IsLeastRow, ComesFrom, carried, need};

use hoist_base::Line;

/// Writes one hoist's row of a period: the least positions, by tick, that are at or above h times the gap, every fixed
/// position and the row below with a gap between, and that change by at most 1 from each tick to the next, the last to
/// the first too.
pub fn sweep(
    line: &Line,
    period: u32,
    h: u32,
    fixed: &[Option<u32>],
    low: Option<&[u32]>,
    into: &mut [u32],
)
    requires hoist { h < line.now.hoists }
    requires period { (1 ≤ period) × (period ≤ 20000) }
    requires fixed { length fixed.now ≡ period }
    requires low { IfSome low (λ below. length below.now ≡ period) }
    requires low_small { IfSome low (λ below. (t : ℕ) → get_or below.now t 0 ≤ line.now.track) }
    requires into { length into.old ≡ period }
    ensures least { IsLeastRow line.now period h fixed.now (option_map (λ below. below.now) low.entry) into.new }
    ensures from { ComesFrom period (need line.now h fixed.now (option_map (λ below. below.now) low.entry))
        (λ t. get_or into.new t 0) }
{
    write_needs(line, h, fixed, low, into);
    raise_after(into);
    into.reverse();
    raise_after(into);
    into.reverse();
}

// Writes what a hoist needs at each tick by itself.
fn write_needs(line: &Line, h: u32, fixed: &[Option<u32>], low: Option<&[u32]>, into: &mut [u32])
    requires hoist { h < line.now.hoists }
    requires fixed { length fixed.now ≡ length into.old }
    requires low { IfSome low (λ below. length below.now ≡ length into.old) }
    requires low_small { IfSome low (λ below. (t : ℕ) → get_or below.now t 0 ≤ line.now.track) }
    ensures count { length into.new ≡ length into.old }
    ensures needs { (t : ℕ) → t < length into.new
        → get_or into.new t 0 ≡ need line.now h fixed.now (option_map (λ below. below.now) low.entry) t }
{
    let gap = line.gap();
    let room = h * gap;
    for t in 0..into.len() {
        let below = match low {
            Some(row) => row[t] + gap,
            None => 0,
        };
        into[t] = room.max(fixed[t].unwrap_or(0)).max(below);
    }
}

// Raises a row no more than needed, so that it falls by at most 1 from each tick to the next, the last to the first
// too.
fn raise_after(row: &mut [u32])
    ensures count { length row.new ≡ length row.old }
    ensures raised { IsRaised (length row.old) (λ t. get_or row.old t 0) (λ t. get_or row.new t 0) }
{
    let mut height = height_round(row);
    for t in 0..row.len() {
        height = height.saturating_sub(1).max(row[t]);
        row[t] = height;
    }
}

// The height that is carried round to the first tick: along the row it falls by 1 each tick, and is raised to the row.
fn height_round(row: &[u32]) -> u32
    ensures { result ≡ carried (λ t. get_or row.now t 0) 0 (length row.now) }
{
    let mut height: u32 = 0;
    for t in 0..row.len() {
        height = row[t].max(height.saturating_sub(1));
    }
    height
}

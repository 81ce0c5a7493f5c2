// Where the moves of one hoist fix it, by tick of the period.
ghost use Rattle.std.specs.Prelude.{◌≡◌, ◌<◌, ◌≤◌, ◌+◌, ℕ, length, get_or, true, false, None, MatchBool};
ghost use Rattle.hoist_base.specs.LineData.{move_count, IsMove};
ghost use Rattle.hoist_base.specs.Routes.{IsRoute};
ghost use Rattle.line_model.specs.Motion.{IsMotion};
ghost use Rattle.line_model.specs.Motion as lasting;
ghost use Rattle.path_envelope.specs.Duties.{duties, HaveReach, Agree};
ghost use Rattle.path_envelope.specs.Slots.{IsWritten, IsDouble, IsTable};

use crate::duties::Duties;
use move_list::{Motion, duration, motion_of, place};

/// Writes where a hoist has to be at each tick of the period; false where two of its moves, or one, ask two positions
/// of it at one tick.
pub(crate) fn write_hoist(asked: Duties, h: u32, table: &mut [Option<u32>]) -> bool
    requires route { IsRoute asked.line.now asked.route.now }
    requires period { 1 ≤ asked.period }
    requires starts { (length asked.starts.now ≡ move_count asked.line.now)
        × ((i : ℕ) → get_or asked.starts.now i 0 ≤ 1000000000) }
    requires hoists { length asked.hoists.now ≡ move_count asked.line.now }
    requires table { length table.old ≡ asked.period }
    ensures { let p = duties asked.entry.line.now asked.entry.route.now asked.entry.period asked.entry.starts.now
        asked.entry.hoists.now in MatchBool result
        (IsTable asked.entry.line.now p h (move_count asked.entry.line.now) table.new)
        (Agree asked.entry.line.now p → ⊥) }
{
    table.fill(None);
    for number in 0..asked.line.move_count() {
        if asked.hoists[number as usize] == h {
            let motion = motion_of(asked.line, asked.route, asked.line.move_at(number));
            if !write_motion(motion, asked.starts[number as usize], asked.period, table) {
                return false;
            }
        }
    }
    true
}

// Writes the positions of a motion, by tick of the period; false where another position stands there.
fn write_motion(motion: Motion, start: u64, period: u32, table: &mut [Option<u32>]) -> bool
    requires motion { IsMotion motion }
    requires start { start ≤ 1000000000 }
    requires period { (1 ≤ period) × (length table.old ≡ period) }
    ensures written { MatchBool result (IsWritten motion start period (lasting.duration motion + 1) table.old table.new)
        (IsDouble motion start period table.old table.new) }
    ensures count { length table.new ≡ length table.old }
{
    for u in 0..duration(motion) + 1 {
        let slot = ((start + u64::from(u)) % u64::from(period)) as usize;
        let at = place(motion, u);
        match table[slot] {
            Some(other) => {
                if other != at {
                    return false;
                }
            }
            None => table[slot] = Some(at),
        }
    }
    true
}

// Positions of hoists: how they are read, and whether they are spaced.
ghost use Rattle.std.specs.Prelude.{◌≡◌, ◌≤◌, ◌-◌, All, length, Option, None};
ghost use Rattle.field_reading.specs.Gives.{Gives};
ghost use Rattle.tick_machine.specs.Layout.{layout_of};
ghost use Rattle.tick_machine.specs.Step as steps;
ghost use Rattle.track_log.specs.Logs.{most_position};
ghost use Rattle.field_reading.specs.Reading.{items_at};
ghost use Rattle.track_log.specs.Reading.{places_at, position_at};
ghost use Rattle.track_log.specs.Following as following;

use crate::fields::position;
use field_reading::{Stop, word};
use hoist_base::Line;
use std::alloc::Global;
use tick_machine::Breach;

/// The positions of all hoists at tick 0, to the end of the line.
#[tactic(auto, unfolding(crate::specs::Reading::places_at))]
pub(crate) fn places(alloc: Global, hoists: u32, bytes: &[u8]) -> Result<(Vec<u32>, &[u8]), Stop>
    ensures { Gives (λ x. (x.0.items, x.1.now)) result (places_at hoists bytes.now) }
{
    let (at, rest) = positions(alloc, hoists, bytes)?;
    let rest = word(b"\n", rest)?;
    Ok((at, rest))
}

/// So many positions.
fn positions(alloc: Global, hoists: u32, bytes: &[u8]) -> Result<(Vec<u32>, &[u8]), Stop>
    ensures { Gives (λ x. (x.0.items, x.1.now)) result (items_at (λ h. position_at) 0 hoists bytes.now) }
{
    let mut at = Vec::with_capacity(alloc, hoists as usize)?;
    let mut rest = bytes;
    for h in 0..hoists {
        let (one, after) = position(rest)?;
        at.push(one)?;
        rest = after;
    }
    Ok((at, rest))
}

/// The lowest hoist above the track.
#[tactic(auto, using(tick_machine::proofs::Passes::first_at))]
fn first_above(line: &Line, at: &[u32]) -> Option<Breach>
    requires { length at.now ≡ line.now.hoists }
    ensures { result ≡ steps.first line.now.hoists (following.above (layout_of line.now) (following.place at.now)) }
{
    for h in 0..line.hoists() {
        let place = at[h as usize];
        if place > line.track() {
            return Some(Breach::Edge {
                hoist: h,
                at: place,
            });
        }
    }
    None
}

/// The lowest hoist that is less than the gap below the next one.
#[tactic(auto, using(tick_machine::proofs::Passes::first_at))]
fn first_close(line: &Line, at: &[u32]) -> Option<Breach>
    requires count { length at.now ≡ line.now.hoists }
    requires small { All (λ x. x ≤ most_position) at.now }
    ensures { result ≡ steps.first (line.now.hoists - 1)
        (following.close (layout_of line.now) (following.place at.now)) }
{
    let pairs = line.hoists().saturating_sub(1);
    for h in 0..pairs {
        let low = at[h as usize];
        let high = at[h as usize + 1];
        if high < low + line.gap() {
            return Some(Breach::Near {
                hoist: h,
                low,
                high,
            });
        }
    }
    None
}

/// Why the positions aren't spaced: where a hoist is above the track, the lowest such, else the lowest that is less
/// than the gap below the next one.
pub(crate) fn unspaced(line: &Line, at: &[u32]) -> Option<Breach>
    requires count { length at.now ≡ line.now.hoists }
    requires small { All (λ x. x ≤ most_position) at.now }
    ensures { result ≡ following.unspaced (layout_of line.now) (following.place at.now) }
{
    let above = first_above(line, at);
    if above.is_some() {
        above
    } else {
        first_close(line, at)
    }
}

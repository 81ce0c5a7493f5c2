// Points 10 and 11 of a step: no carrier rests for too long, and no hoist is too near to the next.
ghost use Rattle.std.specs.Prelude.{◌≡◌, ◌-◌, ◌≤◌, length};
ghost use Rattle.tick_machine.specs.Layout.{layout_of};
ghost use Rattle.tick_machine.specs.Scene.{scene_of, IsSized};
ghost use Rattle.tick_machine.specs.Points as points;
ghost use Rattle.tick_machine.specs.Step as steps;
ghost use Rattle.tick_machine.specs.Fits.{Fits, HoldFits};

use crate::breach::Breach;
use crate::frame::{Frame, Hold, Rest};
use hoist_base::Line;

/// Point 10 of one hold: it rests at most as long as its stage allows.
fn late(line: &Line, hold: Hold) -> Option<Breach>
    requires { HoldFits (layout_of line.now) hold }
    ensures { result ≡ points.late_hold (layout_of line.now) hold hold.rest }
{
    let greatest = line.stages()[hold.stage as usize].max;
    match (hold.rest, greatest) {
        (Rest::Resting(age), Some(max)) if age > u64::from(max) => Some(Breach::Late {
            carrier: hold.carrier,
            stage: hold.stage,
            age,
            bound: u64::from(max),
        }),
        _ => None,
    }
}

/// Point 10 of all tanks, from the lowest.
#[tactic(auto, using(crate::proofs::Passes::first_at))]
pub(crate) fn first_late(line: &Line, frame: &Frame) -> Option<Breach>
    requires sized { IsSized line.now frame.now }
    requires fits { Fits (layout_of line.now) 2000 (scene_of frame.now) }
    ensures { result ≡ steps.first (length line.now.tanks) (points.late (layout_of line.now) (scene_of frame.now)) }
{
    let tanks = line.tanks().len();
    for i in 0..tanks {
        if let Some(hold) = frame.hold[i] {
            let found = late(line, hold);
            if found.is_some() {
                return found;
            }
        }
    }
    None
}

/// Point 11 of hoist `h` at `low`: the hoist above it, at `high`, keeps the gap.
#[tactic(auto, using(crate::proofs::Lines::layout_is))]
fn near(line: &Line, h: u32, low: u32, high: u32) -> Option<Breach>
    requires { low ≤ line.now.track }
    ensures { result ≡ points.near_by (layout_of line.now) h low high }
{
    if high < low + line.gap() {
        Some(Breach::Near {
            hoist: h,
            low,
            high,
        })
    } else {
        None
    }
}

/// Point 11 of all hoists but the highest, from the lowest.
#[tactic(auto, using(crate::proofs::Passes::first_at))]
pub(crate) fn first_near(line: &Line, frame: &Frame) -> Option<Breach>
    requires sized { IsSized line.now frame.now }
    requires fits { Fits (layout_of line.now) 2000 (scene_of frame.now) }
    ensures { result ≡ steps.first (line.now.hoists - 1) (points.near (layout_of line.now) (scene_of frame.now)) }
{
    let pairs = line.hoists().saturating_sub(1);
    for h in 0..pairs {
        let found = near(line, h, frame.at[h as usize], frame.at[h as usize + 1]);
        if found.is_some() {
            return found;
        }
    }
    None
}

// The moves that hoists carry by, and the numbers of the line that the points test.
ghost use Rattle.std.specs.Prelude.{◌≡◌, ℕ, ◌+◌, ◌-◌, ◌<◌, ◌≤◌, length};
ghost use Rattle.hoist_base.specs.LineData.{last_stage};
ghost use Rattle.tick_machine.specs.Layout.{layout_of, only_tank, least_age, move_place};
ghost use Rattle.tick_machine.specs.Points as points;
ghost use Rattle.tick_machine.specs.Fits.{CarryFits};

use crate::frame::Carry;
use hoist_base::Line;

/// The ticks of a carry's move.
#[tactic(auto, using(crate::proofs::Lines::layout_is), unfolding(crate::specs::Layout::move_ticks))]
pub(crate) fn length_of(line: &Line, c: Carry) -> u32
    requires { CarryFits (layout_of line.now) 2000 c }
    ensures value { result ≡ points.length_of (layout_of line.now) c }
    ensures small { result ≤ 2000 }
    ensures step { c.step ≤ 30 }
{
    let from = line.at(c.from);
    let to = line.at(c.to);
    let stages = line.stages();
    stages[c.step as usize].lift + from.abs_diff(to) + stages[c.step as usize + 1].lower
}

/// Where the hoist is `elapsed` ticks after its move began.
#[tactic(auto, using(crate::proofs::Lines::layout_is), unfolding(crate::specs::Layout::move_place))]
pub(crate) fn place_of(line: &Line, c: Carry, elapsed: u32) -> u32
    requires fits { CarryFits (layout_of line.now) 2000 c }
    requires elapsed { elapsed ≤ 2000 }
    ensures value { result ≡ move_place (layout_of line.now) c.step c.from c.to elapsed }
{
    let from = line.at(c.from);
    let to = line.at(c.to);
    let gone = elapsed.saturating_sub(line.stages()[c.step as usize].lift);
    if to < from {
        from.saturating_sub(gone).max(to)
    } else {
        (from + gone).min(to)
    }
}

/// The tank of the first stage.
#[tactic(auto, using(crate::proofs::Lines::first_tank_there))]
pub(crate) fn load_tank(line: &Line) -> u32
    ensures value { result ≡ only_tank line.now 0 }
    ensures there { result < length line.now.tanks }
{
    line.stages()[0].tanks.as_slice()[0]
}

/// The tank of the last stage.
#[tactic(auto, using(crate::proofs::Lines::first_tank_there))]
pub(crate) fn unload_tank(line: &Line) -> u32
    ensures value { result ≡ only_tank line.now (last_stage line.now) }
    ensures there { result < length line.now.tanks }
{
    line.stages()[line.inner() as usize + 1].tanks.as_slice()[0]
}

/// The least age at which a carrier leaves a stage, in ticks.
pub(crate) fn least(line: &Line, stage: u32) -> u32
    requires { stage < length line.now.stages }
    ensures { result ≡ least_age line.now stage }
{
    if stage == 0 {
        line.load()
    } else if stage == line.inner() + 1 {
        line.unload()
    } else {
        line.stages()[stage as usize].min
    }
}

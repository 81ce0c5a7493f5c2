// When visits hold their tanks.
ghost use Rattle.std.specs.Prelude.{◌≡◌, ◌+◌, ◌≤◌, ◌<◌, pos, ◌-ℤ◌, unsigned_abs};
ghost use Rattle.hoist_base.specs.LineData.{IsMove, IsVisit, IsStep, stage, move_count};
ghost use Rattle.hoist_base.specs.Valid.{IsLine};
ghost use Rattle.path_constraints.specs.Questions.{FitsPath};
ghost use Rattle.path_constraints.specs.Tanks as below;
ghost use Rattle.path_constraints.specs.Holds as holds;

use crate::times::times_below;
use choice_tree::Decision;
use hoist_base::{Line, MoveId, VisitId};

/// The tick of move (carrier, step) and a fixed number of ticks.
#[derive(Clone, Copy)]
pub struct Moment {
    pub carrier: u32,
    pub step: u32,
    pub fixed: i64,
}

// The number of a moment's move among all moves.
pub(crate) fn node_of(line: &Line, moment: Moment) -> u32
    requires { IsMove line.now moment.carrier moment.step }
    ensures value { result ≡ holds.node_of line.now moment }
    ensures there { result < move_count line.now }
    ensures small { move_count line.now ≤ 124 }
    ensures valid { IsLine line.now }
{
    line.move_number(MoveId {
        carrier: moment.carrier,
        step: moment.step,
    })
}

// How long lowering into the stage behind a step takes.
fn lower_behind(line: &Line, step: u32) -> u32
    requires { IsStep line.now step }
    ensures value { result ≡ (stage line.now (step + 1)).lower }
    ensures small { result ≤ 500 }
{
    line.stages()[step as usize + 1].lower
}

// How long after the start of a move the lowering begins.
fn lowering(ticks: u32, lower: u32) -> i64
    requires { (ticks ≤ 2000) × (lower ≤ 500) }
    ensures value { result ≡ pos ticks -ℤ pos lower }
    ensures small { unsigned_abs result ≤ 20000 }
{
    i64::from(ticks) - i64::from(lower)
}

/// When the hold of a visit begins: with the least time at the load station, or with the lowering at the end of the
/// move before it, which lasts so many ticks.
pub fn begin_of(line: &Line, visit: VisitId, lasting: u32) -> Moment
    requires there { IsVisit line.now visit.carrier visit.stage }
    requires lasting { lasting ≤ 2000 }
    ensures value { result ≡ holds.begin_of line.now (λ c k. lasting) visit.carrier visit.stage }
    ensures move_there { IsMove line.now result.carrier result.step }
    ensures small { unsigned_abs result.fixed ≤ 20000 }
{
    let carrier = visit.carrier;
    let load = line.load();
    if visit.stage == 0 {
        return Moment {
            carrier,
            step: 0,
            fixed: -i64::from(load),
        };
    }
    let step = visit.stage - 1;
    let fixed = lowering(lasting, lower_behind(line, step));
    Moment {
        carrier,
        step,
        fixed,
    }
}

/// When it ends: with the lifting, or with the least time at the unload station behind the carrier's last move, which
/// lasts so many ticks.
pub fn end_of(line: &Line, visit: VisitId, lasting: u32) -> Moment
    requires there { IsVisit line.now visit.carrier visit.stage }
    requires lasting { lasting ≤ 2000 }
    ensures value { result ≡ holds.end_of line.now (λ c k. lasting) visit.carrier visit.stage }
    ensures move_there { IsMove line.now result.carrier result.step }
    ensures small { unsigned_abs result.fixed ≤ 22000 }
{
    let carrier = visit.carrier;
    let inner = line.inner();
    if visit.stage == inner + 1 {
        return Moment {
            carrier,
            step: inner,
            fixed: i64::from(lasting + line.unload()),
        };
    }
    let step = visit.stage;
    let lift = line.stages()[step as usize].lift;
    Moment {
        carrier,
        step,
        fixed: i64::from(lift),
    }
}

/// When the hold of a visit begins, where the move before it lasts as little as the path allows.
pub(crate) fn begin_below(line: &Line, path: &[Decision], visit: VisitId) -> Moment
    requires fits { FitsPath line.now path.now }
    requires there { IsVisit line.now visit.carrier visit.stage }
    requires valid { IsLine line.now }
    ensures value { result ≡ holds.begin_of line.now (below.low line.now path.now) visit.carrier visit.stage }
    ensures move_there { IsMove line.now result.carrier result.step }
    ensures small { unsigned_abs result.fixed ≤ 20000 }
{
    // The load station has no move before it, and the first one is looked at in vain.
    let before = MoveId {
        carrier: visit.carrier,
        step: visit.stage.saturating_sub(1),
    };
    begin_of(line, visit, times_below(line, path, before).low)
}

/// When it ends, where the carrier's last move lasts as little as the path allows.
pub(crate) fn end_below(line: &Line, path: &[Decision], visit: VisitId) -> Moment
    requires fits { FitsPath line.now path.now }
    requires there { IsVisit line.now visit.carrier visit.stage }
    ensures value { result ≡ holds.end_of line.now (below.low line.now path.now) visit.carrier visit.stage }
    ensures move_there { IsMove line.now result.carrier result.step }
    ensures small { unsigned_abs result.fixed ≤ 22000 }
    ensures valid { IsLine line.now }
{
    let last = MoveId {
        carrier: visit.carrier,
        step: line.inner(),
    };
    end_of(line, visit, times_below(line, path, last).low)
}

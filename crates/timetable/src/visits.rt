// When carriers come and go at their tanks, and when they hold them.
ghost use Rattle.std.specs.Prelude.{◌≡◌, ◌≤◌};
ghost use Rattle.hoist_base.specs.LineData.{IsVisit};
ghost use Rattle.line_model.specs.Legal as legal;
ghost use Rattle.timetable.specs.TimetableData.{timetable_of, FitsLine};
ghost use Rattle.timetable.specs.Faults as faults;

use crate::carrying::motion;
use crate::stretch::Stretch;
use crate::timetable::Timetable;
use hoist_base::{Line, MoveId, VisitId};
use move_list::duration;

/// The tick at which a carrier begins to rest in its tank of a visit: it is put on at the load station, and set down
/// elsewhere. The line has the visit, and the timetable fits the line.
pub fn arrival(line: &Line, t: &Timetable, v: VisitId) -> u64
    requires fits { FitsLine line.now t.now }
    requires there { IsVisit line.now v.carrier v.stage }
    ensures value { result ≡ faults.arrival line.now (timetable_of t.now) v.carrier v.stage }
    ensures small { result ≤ 1000002000 }
{
    if v.stage == 0 {
        return t.put(v.carrier);
    }
    let m = MoveId {
        carrier: v.carrier,
        step: v.stage - 1,
    };
    t.start(m) + duration(motion(line, t, m)) as u64
}

/// The tick at which a carrier ends its rest in its tank of a visit: it is taken off at the unload station, and its
/// lift starts elsewhere. The line has the visit, and the timetable fits the line.
pub fn departure(line: &Line, t: &Timetable, v: VisitId) -> u64
    requires fits { FitsLine line.now t.now }
    requires there { IsVisit line.now v.carrier v.stage }
    ensures value { result ≡ faults.departure line.now (timetable_of t.now) v.carrier v.stage }
    ensures small { result ≤ 1000000000 }
{
    if v.stage == line.inner() + 1 {
        return t.off(v.carrier);
    }
    let m = MoveId {
        carrier: v.carrier,
        step: v.stage,
    };
    t.start(m)
}

/// The ticks at which a visit holds its tank.
pub(crate) fn hold_of(line: &Line, t: &Timetable, v: VisitId) -> Stretch
    requires fits { FitsLine line.now t.now }
    requires there { IsVisit line.now v.carrier v.stage }
    ensures begin { result.begin ≡ legal.hold_begin line.now (timetable_of t.now) v.carrier v.stage }
    ensures end { result.end ≡ legal.hold_end line.now (timetable_of t.now) v.carrier v.stage }
    ensures small { result.begin ≤ 2000000000 }
    ensures end_small { result.end ≤ 2000000000 }
{
    let stage = &line.stages()[v.stage as usize];
    Stretch {
        begin: arrival(line, t, v) - stage.lower as u64,
        end: departure(line, t, v) + stage.lift as u64,
    }
}

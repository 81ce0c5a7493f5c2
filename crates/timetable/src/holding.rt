// Faults of the tanks: held by two visits at once.
ghost use Rattle.std.specs.Prelude.{◌≡◌, ◌<◌, IfSome, length};
ghost use Rattle.hoist_base.specs.LineData.{IsVisit, visit_count};
ghost use Rattle.timetable.specs.TimetableData.{timetable_of, FitsLine};
ghost use Rattle.timetable.specs.Numbers.{IsFirstPartner};
ghost use Rattle.timetable.specs.Stretch.{IsLeastShift};
ghost use Rattle.timetable.specs.Faults.{AreInOrder, HoldTwo, IsFirstOf};

use crate::fault::Fault;
use crate::timetable::Timetable;
use crate::visits::hold_of;
use hoist_base::{Line, VisitId};

/// The first two visits, or copies of one visit, that hold one tank at one tick.
pub(crate) fn first_hold(line: &Line, t: &Timetable) -> Option<Fault>
    requires { FitsLine line.now t.now }
    ensures { IsFirstOf 7 line.now (timetable_of t.now) result }
{
    for number in 0..line.visit_count() {
        let a = line.visit_at(number);
        if let Some((partner, shift)) = first_partner(line, t, a) {
            let b = line.visit_at(partner);
            return Some(Fault::Hold { a, b, shift });
        }
    }
    None
}

// The number of the first visit, not before visit a, that holds the tank of a together with a, and the shift.
fn first_partner(line: &Line, t: &Timetable, a: VisitId) -> Option<(u32, i64)>
    requires fits { FitsLine line.now t.now }
    requires there { IsVisit line.now a.carrier a.stage }
    ensures first { IsFirstPartner (length line.now.stages)
        (HoldTwo line.now (timetable_of t.now) a.carrier a.stage) result }
    ensures there { IfSome result (λ x. x.0 < visit_count line.now) }
{
    for number in line.visit_number(a)..line.visit_count() {
        if let Some(shift) = first_shift(line, t, a, line.visit_at(number)) {
            return Some((number, shift));
        }
    }
    None
}

// The least shift of visit b, not before visit a, with which both hold one tank.
fn first_shift(line: &Line, t: &Timetable, a: VisitId, b: VisitId) -> Option<i64>
    requires fits { FitsLine line.now t.now }
    requires first { IsVisit line.now a.carrier a.stage }
    requires second { IsVisit line.now b.carrier b.stage }
    requires order { AreInOrder a.carrier a.stage b.carrier b.stage }
    ensures { IsLeastShift (HoldTwo line.now (timetable_of t.now) a.carrier a.stage b.carrier b.stage) result }
{
    if t.tank(a) != t.tank(b) {
        return None;
    }
    let hold = hold_of(line, t, a);
    if a == b {
        hold.first_return(t.period())
    } else {
        hold.first_meeting(hold_of(line, t, b), t.period())
    }
}

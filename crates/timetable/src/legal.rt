// Whether a timetable is legal.
ghost use Rattle.std.specs.Prelude.{◌≡◌, ◌↔◌, IsTrue, None, IfSome};
ghost use Rattle.line_model.specs.Legal.{IsLegal};
ghost use Rattle.timetable.specs.TimetableData.{timetable_of, FitsLine};
ghost use Rattle.timetable.specs.Faults.{IsFirstFault};

use crate::carrying::{first_carry, first_motion};
use crate::fault::Fault;
use crate::holding::first_hold;
use crate::timetable::Timetable;
use crate::track::{first_gap, first_speed, first_track};
use crate::windows::{first_dwell, first_numbering};
use hoist_base::Line;

/// The first fault of a timetable whose lists fit the line, or None where it is legal. It takes no memory.
///
/// Of the faults that it has, that of the first variant of `Fault` is taken, and of these the first by its values in
/// the order of the fields. The shift of a Carry or a Hold is the least whole number of periods for which the two meet.
pub fn first_fault(line: &Line, t: &Timetable) -> Option<Fault>
    requires { FitsLine line.now t.now }
    ensures legal { (result ≡ None) ↔ IsLegal line.now (timetable_of t.now) }
    ensures first { IfSome result (λ f. IsFirstFault line.now (timetable_of t.now) f) }
{
    if let Some(fault) = first_track(line, t) {
        return Some(fault);
    }
    if let Some(fault) = first_gap(line, t) {
        return Some(fault);
    }
    if let Some(fault) = first_speed(line, t) {
        return Some(fault);
    }
    if let Some(fault) = first_motion(line, t) {
        return Some(fault);
    }
    if let Some(fault) = first_carry(line, t) {
        return Some(fault);
    }
    if let Some(fault) = first_dwell(line, t) {
        return Some(fault);
    }
    if let Some(fault) = first_numbering(line, t) {
        return Some(fault);
    }
    first_hold(line, t)
}

/// Whether a timetable whose lists fit the line is legal: the hoists keep to the track, the gap and their speed, each
/// move's hoist follows its motion, no hoist carries and no tank is held twice at a tick, each dwell is in its
/// window, and the carriers are numbered as they are put on. It takes no memory.
pub fn is_legal(line: &Line, t: &Timetable) -> bool
    requires { FitsLine line.now t.now }
    ensures { IsTrue result ↔ IsLegal line.now (timetable_of t.now) }
{
    first_fault(line, t).is_none()
}

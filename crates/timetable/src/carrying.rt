// Faults of the hoists that carry: off their motion, or with two carriers at once.
ghost use Rattle.std.specs.Prelude.{◌≡◌, ◌<◌, ◌≤◌, ◌+◌, IfSome};
ghost use Rattle.hoist_base.specs.LineData.{IsMove, last_stage, move_count};
ghost use Rattle.line_model.specs.Motion.{IsMotion};
ghost use Rattle.line_model.specs.Motion as lasting;
ghost use Rattle.line_model.specs.Timetable as model;
ghost use Rattle.timetable.specs.TimetableData.{timetable_of, FitsLine};
ghost use Rattle.timetable.specs.Numbers.{IsLeastOf, IsFirstPartner};
ghost use Rattle.timetable.specs.Stretch.{IsLeastShift};
ghost use Rattle.timetable.specs.Faults.{AreInOrder, IsAstray, CarriesTwo, IsFirstOf};

use crate::fault::Fault;
use crate::stretch::Stretch;
use crate::timetable::Timetable;
use hoist_base::{Line, MoveId};
use move_list::{Motion, duration, motion_of, place};

/// The motion of a move between the tanks that the timetable gives its carrier.
pub(crate) fn motion(line: &Line, t: &Timetable, m: MoveId) -> Motion
    requires fits { FitsLine line.now t.now }
    requires there { IsMove line.now m.carrier m.step }
    ensures value { result ≡ model.motion line.now (timetable_of t.now) m.carrier m.step }
    ensures motion { IsMotion result }
{
    motion_of(line, t.route(), m)
}

/// The first move whose hoist isn't where the motion has it, with the first tick of the move at which it isn't.
pub(crate) fn first_motion(line: &Line, t: &Timetable) -> Option<Fault>
    requires { FitsLine line.now t.now }
    ensures { IsFirstOf 3 line.now (timetable_of t.now) result }
{
    for number in 0..line.move_count() {
        let m = line.move_at(number);
        if let Some(u) = first_astray(line, t, m) {
            let want = place(motion(line, t, m), u);
            let seen = t.position(t.hoist(m), t.start(m) + u as u64);
            return Some(Fault::Motion { m, u, want, seen });
        }
    }
    None
}

// The first tick of a move, from its start, at which its hoist isn't where the motion has it.
fn first_astray(line: &Line, t: &Timetable, m: MoveId) -> Option<u32>
    requires fits { FitsLine line.now t.now }
    requires there { IsMove line.now m.carrier m.step }
    ensures { IsLeastOf (IsAstray line.now (timetable_of t.now) m.carrier m.step) result }
{
    let motion = motion(line, t, m);
    let hoist = t.hoist(m);
    let start = t.start(m);
    for u in 0..duration(motion) + 1 {
        if t.position(hoist, start + u as u64) != place(motion, u) {
            return Some(u);
        }
    }
    None
}

/// The first two moves, or copies of one move, that one hoist carries by at one tick.
pub(crate) fn first_carry(line: &Line, t: &Timetable) -> Option<Fault>
    requires { FitsLine line.now t.now }
    ensures { IsFirstOf 4 line.now (timetable_of t.now) result }
{
    for number in 0..line.move_count() {
        let a = line.move_at(number);
        if let Some((partner, shift)) = first_partner(line, t, a) {
            let b = line.move_at(partner);
            return Some(Fault::Carry { a, b, shift });
        }
    }
    None
}

// The number of the first move, not before move a, by which the hoist of a carries together with a, and the shift.
fn first_partner(line: &Line, t: &Timetable, a: MoveId) -> Option<(u32, i64)>
    requires fits { FitsLine line.now t.now }
    requires there { IsMove line.now a.carrier a.step }
    ensures first { IsFirstPartner (last_stage line.now)
        (CarriesTwo line.now (timetable_of t.now) a.carrier a.step) result }
    ensures there { IfSome result (λ x. x.0 < move_count line.now) }
{
    for number in line.move_number(a)..line.move_count() {
        if let Some(shift) = first_shift(line, t, a, line.move_at(number)) {
            return Some((number, shift));
        }
    }
    None
}

// The least shift of move b, not before move a, with which one hoist carries by both.
fn first_shift(line: &Line, t: &Timetable, a: MoveId, b: MoveId) -> Option<i64>
    requires fits { FitsLine line.now t.now }
    requires first { IsMove line.now a.carrier a.step }
    requires second { IsMove line.now b.carrier b.step }
    requires order { AreInOrder a.carrier a.step b.carrier b.step }
    ensures { IsLeastShift (CarriesTwo line.now (timetable_of t.now) a.carrier a.step b.carrier b.step) result }
{
    if t.hoist(a) != t.hoist(b) {
        return None;
    }
    let carry = carry_of(line, t, a);
    if a == b {
        carry.first_return(t.period())
    } else {
        carry.first_meeting(carry_of(line, t, b), t.period())
    }
}

// The ticks at which a move carries.
fn carry_of(line: &Line, t: &Timetable, m: MoveId) -> Stretch
    requires fits { FitsLine line.now t.now }
    requires there { IsMove line.now m.carrier m.step }
    ensures begin { result.begin ≡ (timetable_of t.now).start m.carrier m.step }
    ensures end { result.end ≡ (timetable_of t.now).start m.carrier m.step + lasting.duration
        (model.motion line.now (timetable_of t.now) m.carrier m.step) }
    ensures small { result.begin ≤ 2000000000 }
    ensures end_small { result.end ≤ 2000000000 }
{
    let begin = t.start(m);
    Stretch {
        begin,
        end: begin + duration(motion(line, t, m)) as u64,
    }
}

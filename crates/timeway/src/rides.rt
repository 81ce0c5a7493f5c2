// Rides: the ways of hoists that carry.
ghost use Rattle.std.specs.Prelude.{◌≡◌, ◌≤◌, IfOk};
ghost use Rattle.hoist_base.specs.LineData.{IsMove, IsVisit};
ghost use Rattle.hoist_base.specs.LineData as lines;
ghost use Rattle.line_model.specs.Motion.{IsMotion};
ghost use Rattle.timetable.specs.TimetableData.{timetable_of, FitsLine};
ghost use Rattle.timeway.specs.Shapes as shapes;

use crate::shapes::{carrier_class, push_point, shown, titled};
use hoist_base::{Line, MoveId, VisitId};
use markup::{Element, Key, Tag};
use move_list::{Motion, duration, motion_of};
use std::alloc::{AllocError, Global};
use text_writing::push_word_number;
use timetable::Timetable;

/// A ride, in each period of the plot.
pub(crate) fn ride(
    alloc: Global,
    line: &Line,
    t: &Timetable,
    m: MoveId,
) -> Result<Element, AllocError>
    requires fits { FitsLine line.now t.now }
    requires there { IsMove line.now m.carrier m.step }
    ensures { IfOk result (λ e. e ≡ shapes.ride line.now (timetable_of t.now) m.carrier m.step) }
{
    let motion = motion_of(line, t.route(), m);
    let class = carrier_class(alloc, b"ride c", m.carrier)?;
    let title = ride_title(alloc, line, t, m)?;
    let start = t.start(m);
    let first = ride_line(alloc, line, motion, shown(t, start, 0))?;
    let second = ride_line(alloc, line, motion, shown(t, start, 1))?;
    let third = ride_line(alloc, line, motion, shown(t, start, 2))?;
    titled(alloc, class.as_slice(), title.as_slice())?
        .holding(&first)?
        .holding(&second)?
        .holding(&third)
}

/// The line of a ride that starts at a tick of the plot.
fn ride_line(alloc: Global, line: &Line, m: Motion, start: u64) -> Result<Element, AllocError>
    requires motion { IsMotion m }
    requires small { start ≤ 60000 }
    ensures { IfOk result (λ e. e ≡ shapes.ride_line line.now m start) }
{
    let mut points = Vec::new(alloc);
    let travel = m.from.abs_diff(m.to);
    push_point(&mut points, line, start, m.from)?;
    push_point(&mut points, line, start + m.lift as u64, m.from)?;
    push_point(&mut points, line, start + (m.lift + travel) as u64, m.to)?;
    push_point(&mut points, line, start + duration(m) as u64, m.to)?;
    Element::new(alloc, Tag::Polyline).having(Key::Points, points.as_slice())
}

/// The hoist, the carrier, where it is brought, and the ticks.
fn ride_title(alloc: Global, line: &Line, t: &Timetable, m: MoveId) -> Result<Vec<u8>, AllocError>
    requires fits { FitsLine line.now t.now }
    requires there { IsMove line.now m.carrier m.step }
    ensures { IfOk result (λ text. text.items ≡ shapes.ride_title line.now (timetable_of t.now) m.carrier m.step) }
{
    let start = t.start(m);
    let end = start + duration(motion_of(line, t.route(), m)) as u64;
    let to = VisitId {
        carrier: m.carrier,
        stage: m.step + 1,
    };
    let mut text = Vec::new(alloc);
    push_word_number(&mut text, b"hoist ", t.hoist(m) as u64)?;
    push_word_number(&mut text, b" brings carrier ", m.carrier as u64)?;
    text.extend_from_slice(b" to ")?;
    text.extend_from_slice(tank_name(line, t, to))?;
    push_word_number(&mut text, b", ticks ", start)?;
    push_word_number(&mut text, b" to ", end)?;
    Ok(text)
}

/// The name of the tank that a visit uses.
pub fn tank_name<'a>(line: &'a Line, t: &Timetable, v: VisitId) -> &'a [u8]
    requires fits { FitsLine line.now t.now }
    requires there { IsVisit line.now v.carrier v.stage }
    ensures { result.now ≡ (lines.tank line.now ((timetable_of t.now).tank v.carrier v.stage)).name }
{
    line.tanks()[t.tank(v) as usize].name.as_slice()
}

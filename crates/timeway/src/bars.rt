// Stays of carriers in tanks.
ghost use Rattle.std.specs.Prelude.{◌≡◌, ◌≤◌, ◌++◌, OnOk, IfOk};
ghost use Rattle.hoist_base.specs.LineData.{IsVisit, position_of};
ghost use Rattle.line_model.specs.Legal as legal;
ghost use Rattle.timetable.specs.TimetableData.{timetable_of, FitsLine};
ghost use Rattle.timeway.specs.Shapes as shapes;

use crate::rides::tank_name;
use crate::shapes::{below, carrier_class, shown, straight, titled};
use hoist_base::{Line, VisitId};
use markup::Element;
use std::alloc::{AllocError, Global};
use text_writing::{push_number, push_word_number};
use timetable::{Timetable, arrival, departure, least_dwell};

/// A stay, in each period of the plot.
pub(crate) fn bar(
    alloc: Global,
    line: &Line,
    t: &Timetable,
    v: VisitId,
) -> Result<Element, AllocError>
    requires fits { FitsLine line.now t.now }
    requires there { IsVisit line.now v.carrier v.stage }
    ensures { IfOk result (λ e. e ≡ shapes.bar line.now (timetable_of t.now) v.carrier v.stage) }
{
    let at = tank_place(line, t, v);
    let begin = hold_begin(line, t, v);
    let ticks = hold_end(line, t, v).saturating_sub(begin);
    let class = carrier_class(alloc, b"bar c", v.carrier)?;
    let title = bar_title(alloc, line, t, v)?;
    let first = bar_line(alloc, line, at, ticks, shown(t, begin, 0))?;
    let second = bar_line(alloc, line, at, ticks, shown(t, begin, 1))?;
    let third = bar_line(alloc, line, at, ticks, shown(t, begin, 2))?;
    titled(alloc, class.as_slice(), title.as_slice())?
        .holding(&first)?
        .holding(&second)?
        .holding(&third)
}

/// A bar with so many ticks, from a tick of the plot on.
fn bar_line(
    alloc: Global,
    line: &Line,
    at: u32,
    ticks: u64,
    begin: u64,
) -> Result<Element, AllocError>
    requires ticks { ticks ≤ 2000000000 }
    requires small { begin ≤ 60000 }
    ensures { IfOk result (λ e. e ≡ shapes.bar_line line.now at ticks begin) }
{
    let y = below(line, at) as u64;
    straight(alloc, begin, y, begin + ticks, y)
}

/// The position of the tank that a visit uses.
fn tank_place(line: &Line, t: &Timetable, v: VisitId) -> u32
    requires fits { FitsLine line.now t.now }
    requires there { IsVisit line.now v.carrier v.stage }
    ensures { result ≡ position_of line.now ((timetable_of t.now).tank v.carrier v.stage) }
{
    let tank = t.tank(v);
    line.tanks()[tank as usize].at
}

/// The tick from which on a visit holds its tank: the carrier is put on, or begins to be lowered.
fn hold_begin(line: &Line, t: &Timetable, v: VisitId) -> u64
    requires fits { FitsLine line.now t.now }
    requires there { IsVisit line.now v.carrier v.stage }
    ensures value { result ≡ legal.hold_begin line.now (timetable_of t.now) v.carrier v.stage }
{
    if v.stage == 0 {
        return t.put(v.carrier);
    }
    let lower = line.stages()[v.stage as usize].lower;
    arrival(line, t, v).saturating_sub(lower as u64)
}

/// The tick up to which it holds it: the carrier has been lifted, or is taken off.
fn hold_end(line: &Line, t: &Timetable, v: VisitId) -> u64
    requires fits { FitsLine line.now t.now }
    requires there { IsVisit line.now v.carrier v.stage }
    ensures value { result ≡ legal.hold_end line.now (timetable_of t.now) v.carrier v.stage }
    ensures small { result ≤ 2000000000 }
{
    if v.stage == line.inner() + 1 {
        return t.off(v.carrier);
    }
    let lift = line.stages()[v.stage as usize].lift;
    departure(line, t, v) + lift as u64
}

/// The carrier, the tank, the stage, the dwell and its window.
fn bar_title(alloc: Global, line: &Line, t: &Timetable, v: VisitId) -> Result<Vec<u8>, AllocError>
    requires fits { FitsLine line.now t.now }
    requires there { IsVisit line.now v.carrier v.stage }
    ensures { IfOk result (λ text. text.items ≡ shapes.bar_title line.now (timetable_of t.now) v.carrier v.stage) }
{
    let mut text = Vec::new(alloc);
    push_place(&mut text, line, t, v)?;
    push_window(&mut text, line, t, v)?;
    Ok(text)
}

/// Writes the carrier, the tank and the stage.
fn push_place(text: &mut Vec<u8>, line: &Line, t: &Timetable, v: VisitId) -> Result<(), AllocError>
    requires fits { FitsLine line.now t.now }
    requires there { IsVisit line.now v.carrier v.stage }
    ensures { OnOk result (text.new.items ≡ text.old.items
        ++ shapes.bar_place line.now (timetable_of t.now) v.carrier v.stage) }
{
    push_word_number(text, b"carrier ", v.carrier as u64)?;
    text.extend_from_slice(b" in ")?;
    text.extend_from_slice(tank_name(line, t, v))?;
    push_word_number(text, b", stage ", v.stage as u64)
}

/// Writes the dwell and its window.
fn push_window(text: &mut Vec<u8>, line: &Line, t: &Timetable, v: VisitId) -> Result<(), AllocError>
    requires fits { FitsLine line.now t.now }
    requires there { IsVisit line.now v.carrier v.stage }
    ensures { OnOk result (text.new.items ≡ text.old.items
        ++ shapes.bar_window line.now (timetable_of t.now) v.carrier v.stage) }
{
    push_word_number(text, b": dwell ", rest_ticks(line, t, v))?;
    push_word_number(text, b", window ", least_dwell(line, v.stage) as u64)?;
    text.extend_from_slice(b" to ")?;
    push_greatest(text, line.stages()[v.stage as usize].max)
}

/// The ticks of a dwell: from when the carrier begins to rest in its tank until it is lifted or taken off.
pub fn rest_ticks(line: &Line, t: &Timetable, v: VisitId) -> u64
    requires fits { FitsLine line.now t.now }
    requires there { IsVisit line.now v.carrier v.stage }
    ensures { result ≡ shapes.rest_ticks line.now (timetable_of t.now) v.carrier v.stage }
{
    departure(line, t, v).saturating_sub(arrival(line, t, v))
}

/// Writes a greatest dwell, or that there is none.
pub fn push_greatest(text: &mut Vec<u8>, most: Option<u32>) -> Result<(), AllocError>
    ensures { OnOk result (text.new.items ≡ text.old.items ++ shapes.greatest_text most) }
{
    match most {
        None => text.extend_from_slice(b"any"),
        Some(most) => push_number(text, most as u64),
    }
}

// The ways of hoists.
ghost use Rattle.std.specs.Prelude.{◌≡◌, ◌+◌, ◌*◌, ◌<◌, ◌≤◌, ◌++◌, length, OnOk, IfOk};
ghost use Rattle.timetable.specs.TimetableData.{timetable_of, FitsLine};
ghost use Rattle.timeway.specs.Shapes as shapes;

use crate::shapes::{push_point, titled};
use hoist_base::Line;
use markup::{Element, Key, Tag};
use std::alloc::{AllocError, Global};
use text_writing::push_word_number;
use timetable::Timetable;

/// The way of a hoist.
pub(crate) fn way(alloc: Global, line: &Line, t: &Timetable, h: u32) -> Result<Element, AllocError>
    requires fits { FitsLine line.now t.now }
    requires there { h < line.now.hoists }
    ensures { IfOk result (λ e. e ≡ shapes.way line.now (timetable_of t.now) h) }
{
    let mut title = Vec::new(alloc);
    push_word_number(&mut title, b"hoist ", h as u64)?;
    let points = way_points(alloc, line, t, h)?;
    let shape = Element::new(alloc, Tag::Polyline).having(Key::Points, points.as_slice())?;
    titled(alloc, b"way", title.as_slice())?.holding(&shape)
}

/// The corners of a way.
fn way_points(alloc: Global, line: &Line, t: &Timetable, h: u32) -> Result<Vec<u8>, AllocError>
    requires fits { FitsLine line.now t.now }
    requires there { h < line.now.hoists }
    ensures { IfOk result (λ text. text.items ≡ shapes.way_points line.now (timetable_of t.now) h) }
{
    let period = t.period() as u64;
    let mut text = Vec::new(alloc);
    for u in 0..2 * period + 1 {
        push_corner(&mut text, line, t, h, period + u)?;
    }
    Ok(text)
}

/// Writes the position of a hoist at a tick, where its way has a corner.
fn push_corner(
    text: &mut Vec<u8>,
    line: &Line,
    t: &Timetable,
    h: u32,
    tick: u64,
) -> Result<(), AllocError>
    requires hoist { (h + 1) * t.now.period ≤ length t.now.path }
    requires later { 1 ≤ tick }
    requires small { tick ≤ 60000 }
    ensures { OnOk result (text.new.items ≡ text.old.items ++ shapes.corner_text line.now (timetable_of t.now) h tick) }
{
    if is_corner(t, h, tick) {
        push_point(text, line, tick, t.position(h, tick))?;
    }
    Ok(())
}

/// Whether a way has a corner: it begins or ends, or the direction changes.
fn is_corner(t: &Timetable, h: u32, tick: u64) -> bool
    requires hoist { (h + 1) * t.now.period ≤ length t.now.path }
    requires later { 1 ≤ tick }
    requires small { tick ≤ 60000 }
    ensures { result ≡ shapes.is_corner (timetable_of t.now) h tick }
{
    let period = t.period() as u64;
    tick == period || tick == 3 * period || is_turn(t, h, tick)
}

/// Whether a hoist changes its direction at a tick.
fn is_turn(t: &Timetable, h: u32, tick: u64) -> bool
    requires hoist { (h + 1) * t.now.period ≤ length t.now.path }
    requires later { 1 ≤ tick }
    requires small { tick ≤ 60000 }
    ensures { result ≡ shapes.is_turn (timetable_of t.now) h tick }
{
    let before = t.position(h, tick - 1) as u64;
    let here = t.position(h, tick) as u64;
    let after = t.position(h, tick + 1) as u64;
    before + after != 2 * here
}

// Points, straight lines and groups.
ghost use Rattle.std.specs.Prelude.{◌≡◌, ◌≤◌, ◌++◌, decimal, OnOk, IfOk};
ghost use Rattle.timetable.specs.TimetableData.{timetable_of};
ghost use Rattle.timeway.specs.Shapes as shapes;

use hoist_base::Line;
use markup::{Element, Key, Tag};
use std::alloc::{AllocError, Global};
use text_writing::{push_number, push_word_number};
use timetable::Timetable;

/// The tick of the plot that shows a tick, in the plot's first, second or third period.
pub(crate) fn shown(t: &Timetable, tick: u64, turn: u32) -> u64
    requires { turn ≤ 2 }
    ensures value { result ≡ shapes.shown (timetable_of t.now) tick turn }
    ensures small { result ≤ 60000 }
{
    let period = t.period() as u64;
    tick % period + turn as u64 * period
}

/// How far below the end of the track a position is.
pub(crate) fn below(line: &Line, at: u32) -> u32
    ensures { result ≡ shapes.below line.now at }
{
    line.track().saturating_sub(at)
}

/// Writes a point of a line.
pub(crate) fn push_point(
    text: &mut Vec<u8>,
    line: &Line,
    tick: u64,
    at: u32,
) -> Result<(), AllocError>
    ensures { OnOk result (text.new.items ≡ text.old.items ++ shapes.point_text line.now tick at) }
{
    push_number(text, tick)?;
    push_word_number(text, b",", below(line, at) as u64)?;
    text.extend_from_slice(b" ")
}

/// A straight line from one point to another.
pub fn straight(alloc: Global, x1: u64, y1: u64, x2: u64, y2: u64) -> Result<Element, AllocError>
    ensures { IfOk result (λ e. e ≡ shapes.straight x1 y1 x2 y2) }
{
    Element::new(alloc, Tag::Line)
        .having_number(Key::X1, x1)?
        .having_number(Key::Y1, y1)?
        .having_number(Key::X2, x2)?
        .having_number(Key::Y2, y2)
}

/// A group of a class with a title.
pub(crate) fn titled(alloc: Global, class: &[u8], title: &[u8]) -> Result<Element, AllocError>
    ensures { IfOk result (λ e. e ≡ shapes.titled class.now title.now) }
{
    let title = Element::new(alloc, Tag::Title).saying(title)?;
    Element::new(alloc, Tag::Group)
        .having(Key::Class, class)?
        .holding(&title)
}

/// The class of what shows a carrier.
pub fn carrier_class(alloc: Global, word: &[u8], carrier: u32) -> Result<Vec<u8>, AllocError>
    ensures { IfOk result (λ text. text.items ≡ shapes.carrier_class word.now carrier) }
{
    let mut text = Vec::new(alloc);
    push_word_number(&mut text, word, carrier as u64)?;
    Ok(text)
}

// Rows of the table of dwells.
ghost use Rattle.std.specs.Prelude.{◌≡◌, IfOk};
ghost use Rattle.hoist_base.specs.LineData.{IsVisit};
ghost use Rattle.timetable.specs.TimetableData.{timetable_of, FitsLine};
ghost use Rattle.timeway.specs.Shapes as shapes;
ghost use Rattle.report_dwells.specs.Cells as cells;
ghost use Rattle.report_dwells.specs.Dwells as rows;

use crate::cells::{cell, number_cell};
use crate::windows::{dwell_words, end_class, window};
use hoist_base::{Line, VisitId};
use markup::{Element, Key, Tag};
use std::alloc::{AllocError, Global};
use text_writing::push_number;
use timetable::{Timetable, least_dwell};
use timeway::{carrier_class, push_greatest, rest_ticks, tank_name};

/// The row of a visit: where it is, its dwell, and its window.
pub(crate) fn visit_row(
    alloc: Global,
    line: &Line,
    t: &Timetable,
    v: VisitId,
) -> Result<Element, AllocError>
    requires fits { FitsLine line.now t.now }
    requires there { IsVisit line.now v.carrier v.stage }
    ensures { IfOk result (λ e. e ≡ rows.visit_row line.now (timetable_of t.now) v.carrier v.stage) }
{
    let place = place_row(alloc, line, t, v)?;
    let ticks = rest_ticks(line, t, v);
    let least = least_dwell(line, v.stage);
    let most = line.stages()[v.stage as usize].max;
    marked(alloc, place, v.carrier, ticks, least, most)
}

/// A row with the carrier, the stage and the tank of a visit.
fn place_row(alloc: Global, line: &Line, t: &Timetable, v: VisitId) -> Result<Element, AllocError>
    requires fits { FitsLine line.now t.now }
    requires there { IsVisit line.now v.carrier v.stage }
    ensures { IfOk result (λ e. e ≡ rows.place_row line.now (timetable_of t.now) v.carrier v.stage) }
{
    let carrier = carrier_cell(alloc, v.carrier)?;
    let stage = number_cell(alloc, v.stage as u64)?;
    let tank = cell(alloc, tank_name(line, t, v))?;
    Element::new(alloc, Tag::Row)
        .holding(&carrier)?
        .holding(&stage)?
        .holding(&tank)
}

/// The cell of a carrier, with its class.
fn carrier_cell(alloc: Global, carrier: u32) -> Result<Element, AllocError>
    ensures { IfOk result (λ e. e ≡ rows.carrier_cell carrier) }
{
    let class = carrier_class(alloc, b"number c", carrier)?;
    let mut words = Vec::new(alloc);
    push_number(&mut words, carrier as u64)?;
    Element::new(alloc, Tag::Cell)
        .having(Key::Class, class.as_slice())?
        .saying(words.as_slice())
}

/// A row with a dwell behind what it has, whose class tells at which ends of its window the dwell is.
fn marked(
    alloc: Global,
    row: Element,
    carrier: u32,
    ticks: u64,
    least: u32,
    most: Option<u32>,
) -> Result<Element, AllocError>
    ensures { IfOk result (λ e. e ≡ rows.marked row carrier ticks least most) }
{
    let words = dwell_words(alloc, ticks, least, most)?;
    let dwell = cell(alloc, words.as_slice())?;
    let named = row
        .having(Key::Class, end_class(ticks, least, most))?
        .holding(&dwell)?;
    windowed(alloc, named, carrier, ticks, least, most)
}

/// A row with the least and the greatest dwell behind what it has, and the window as a drawing.
fn windowed(
    alloc: Global,
    row: Element,
    carrier: u32,
    ticks: u64,
    least: u32,
    most: Option<u32>,
) -> Result<Element, AllocError>
    ensures { IfOk result (λ e. e ≡ rows.windowed row carrier ticks least most) }
{
    let first = number_cell(alloc, least as u64)?;
    let last = greatest_cell(alloc, most)?;
    let shape = window(alloc, carrier, ticks, least, most)?;
    let drawing = Element::new(alloc, Tag::Cell).holding(&shape)?;
    row.holding(&first)?.holding(&last)?.holding(&drawing)
}

/// The cell of a greatest dwell, or of there being none.
fn greatest_cell(alloc: Global, most: Option<u32>) -> Result<Element, AllocError>
    ensures { IfOk result (λ e. e ≡ cells.cell (shapes.greatest_text most)) }
{
    let mut words = Vec::new(alloc);
    push_greatest(&mut words, most)?;
    cell(alloc, words.as_slice())
}

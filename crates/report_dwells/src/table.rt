// The table of dwells.
ghost use Rattle.std.specs.Prelude.{◌≡◌, map, IfOk};
ghost use Rattle.std.specs.List.{range_with_len};
ghost use Rattle.hoist_base.specs.LineData.{visit_count};
ghost use Rattle.timetable.specs.TimetableData.{timetable_of, FitsLine};
ghost use Rattle.markup.specs.Forms.{holding_all};
ghost use Rattle.report_dwells.specs.Dwells as tables;

use crate::cells::{headed, section};
use crate::rows::visit_row;
use hoist_base::Line;
use markup::{Element, Tag};
use std::alloc::{AllocError, Global};
use timetable::Timetable;

/// The dwells of a timetable that fits its line, as a section: a table with a row for each visit, by carrier and stage,
/// with the tank, the dwell and the least and the greatest dwell in ticks, and a bar that shows where the dwell lies
/// between them. A dwell at an end of its window is marked by its row's class and in words.
pub fn dwells(alloc: Global, line: &Line, t: &Timetable) -> Result<Element, AllocError>
    requires { FitsLine line.now t.now }
    ensures { IfOk result (λ e. e ≡ tables.dwells line.now (timetable_of t.now)) }
{
    let heads = with_heads(alloc, Element::new(alloc, Tag::Row))?;
    let start = Element::new(alloc, Tag::Table).holding(&heads)?;
    let table = with_rows(alloc, start, line, t)?;
    section(alloc, b"dwells", b"Dwells")?.holding(&table)
}

/// A row with the names of the columns.
fn with_heads(alloc: Global, row: Element) -> Result<Element, AllocError>
    ensures { IfOk result (λ e. e ≡ tables.with_heads row) }
{
    let carrier = headed(alloc, row, b"carrier")?;
    let stage = headed(alloc, carrier, b"stage")?;
    let tank = headed(alloc, stage, b"tank")?;
    let dwell = headed(alloc, tank, b"dwell")?;
    let least = headed(alloc, dwell, b"least")?;
    let greatest = headed(alloc, least, b"greatest")?;
    headed(alloc, greatest, b"window")
}

/// The rows of all visits.
fn with_rows(
    alloc: Global,
    mut table: Element,
    line: &Line,
    t: &Timetable,
) -> Result<Element, AllocError>
    requires { FitsLine line.now t.now }
    ensures { IfOk result (λ e. e ≡ holding_all table
        (map (tables.row_at line.now (timetable_of t.now)) (range_with_len 0 (visit_count line.now)))) }
{
    for i in 0..line.visit_count() {
        let row = visit_row(alloc, line, t, line.visit_at(i))?;
        table = table.holding(&row)?;
    }
    Ok(table)
}

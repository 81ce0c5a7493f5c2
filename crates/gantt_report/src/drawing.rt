// The chart of a period.
ghost use Rattle.std.specs.Prelude.{
  ◌≡◌,
  ℕ,
  ◌+◌,
  ◌<◌,
  ◌≤◌,
  ◌==◌,
  ◌++◌,
  codes,
  decimal,
  length,
  map,
  flat_map,
  OnOk,
  IfOk,
};
ghost use Rattle.std.specs.List.{range_with_len, list_any};
ghost use Rattle.hoist_base.specs.declared.tank.Tank.{Tank};
ghost use Rattle.line_model.specs.Timetable.{position};
ghost use Rattle.line_model.specs.Legal.{IsLegal};
ghost use Rattle.timetable.specs.TimetableData.{timetable_of, FitsLine};
ghost use Rattle.gantt_report.specs.Places.{right_in};
ghost use Rattle.gantt_report.specs.Chart as charts;

use crate::marks::carrying;
use crate::places::push_number_right;
use hoist_base::Line;
use std::alloc::{AllocError, Global};
use text_writing::push_word_number;
use timetable::Timetable;

// The bytes that a tick takes in its row.
const TICK_WIDTH: usize = 5;

/// The chart of a legal timetable: its period, and then for each tick of it a row with a cell for each position of the
/// track, from 0.
///
/// A hoist that carries is a letter from `A`, another one a digit from `0`, a tank without a hoist is a point, and any
/// other position is blank.
pub fn chart(alloc: Global, line: &Line, t: &Timetable) -> Result<Vec<u8>, AllocError>
    requires fits { FitsLine line.now t.now }
    requires legal { IsLegal line.now (timetable_of t.now) }
    ensures { IfOk result (λ text. text.items ≡ charts.chart_text line.now (timetable_of t.now)) }
{
    let marks = carrying(alloc, line, t)?;
    let ground = ground_row(alloc, line)?;
    let mut text = Vec::new(alloc);
    push_word_number(&mut text, b"period ", t.period() as u64)?;
    text.push(b'\n')?;
    push_rows(
        alloc,
        &mut text,
        line,
        t,
        marks.as_slice(),
        ground.as_slice(),
    )?;
    Ok(text)
}

#[tactic(auto, using(crate::proofs::Rows::cell_more))]
// The cells of a row without hoists.
fn ground_row(alloc: Global, line: &Line) -> Result<Vec<u8>, AllocError>
    ensures { IfOk result (λ row. row.items ≡ map (charts.ground_cell line.now)
        (range_with_len 0 (line.now.track + 1))) }
{
    let mut row = Vec::new(alloc);
    for x in 0..line.track() + 1 {
        row.push(ground_cell(line, x))?;
    }
    Ok(row)
}

// A point for a tank, and a blank elsewhere.
fn ground_cell(line: &Line, x: u32) -> u8
    ensures { result ≡ charts.ground_cell line.now x }
{
    if has_tank(line, x) { b'.' } else { b' ' }
}

// Whether a tank is at a position.
fn has_tank(line: &Line, x: u32) -> bool
    ensures { result ≡ list_any (λ (i : Tank). i.at == x) line.now.tanks }
{
    line.tanks().iter().any(|tank| tank.at == x)
}

// A row for each tick of the period.
fn push_rows(
    alloc: Global,
    text: &mut Vec<u8>,
    line: &Line,
    t: &Timetable,
    marks: &[bool],
    ground: &[u8],
) -> Result<(), AllocError>
    requires fits { FitsLine line.now t.now }
    requires legal { IsLegal line.now (timetable_of t.now) }
    requires marks { charts.AreMarks line.now (timetable_of t.now) marks.now }
    requires ground { ground.now ≡ map (charts.ground_cell line.now) (range_with_len 0 (line.now.track + 1)) }
    ensures { OnOk result (text.new.items ≡ text.old.items
        ++ flat_map (charts.row_text line.now (timetable_of t.now)) (range_with_len 0 t.now.period)) }
{
    let mut row = Vec::from_slice(alloc, ground)?;
    for tick in 0..t.period() {
        row.copy_from_slice(ground);
        draw_hoists(&mut row, line, t, marks, tick);
        push_row(text, tick, row.as_slice())?;
    }
    Ok(())
}

// Draws the hoists over the cells of a row without hoists.
fn draw_hoists(row: &mut Vec<u8>, line: &Line, t: &Timetable, marks: &[bool], tick: u32)
    requires fits { FitsLine line.now t.now }
    requires tick { tick < t.now.period }
    requires within { (h : ℕ) → h < line.now.hoists → position (timetable_of t.now) h tick ≤ line.now.track }
    requires marks { charts.AreMarks line.now (timetable_of t.now) marks.now }
    requires ground { row.old.items ≡ map (charts.ground_cell line.now) (range_with_len 0 (line.now.track + 1)) }
    ensures { row.new.items ≡ map (charts.cell line.now (timetable_of t.now) tick)
        (range_with_len 0 (line.now.track + 1)) }
{
    for h in 0..line.hoists() {
        let at = t.position(h, tick as u64);
        let carries = marks[(h * t.period() + tick) as usize];
        draw_hoist(&mut row[at as usize], h, carries);
    }
}

// Draws a hoist over a cell: a letter for one that carries, a digit for another one.
fn draw_hoist(cell: &mut u8, h: u32, carries: bool)
    requires { h < 6 }
    ensures { cell.new ≡ charts.hoist_cell h carries }
{
    let first = if carries { b'A' } else { b'0' };
    *cell = first + h as u8;
}

// The tick, and then the cells between two bars.
fn push_row(text: &mut Vec<u8>, tick: u32, cells: &[u8]) -> Result<(), AllocError>
    ensures { OnOk result (text.new.items ≡ text.old.items ++ (right_in 5 (decimal tick) ++ (codes " |" ++ (cells.now ++ codes "|\n")))) }
{
    push_number_right(text, TICK_WIDTH, tick as u64)?;
    text.extend_from_slice(b" |")?;
    text.extend_from_slice(cells)?;
    text.extend_from_slice(b"|\n")
}

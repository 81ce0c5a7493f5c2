// The table of dwells.
ghost use Rattle.std.specs.Prelude.{◌≡◌, ℕ, ◌≤◌, ◌<◌, ◌++◌, codes, OnOk, IfOk};
ghost use Rattle.std.specs.Fmt.{signed_decimal};
ghost use Rattle.hoist_base.specs.LineData.{IsStageOf, IsVisit};
ghost use Rattle.hoist_base.specs.LineData as lines;
ghost use Rattle.line_model.specs.Legal.{IsLegal};
ghost use Rattle.timetable.specs.TimetableData.{timetable_of, FitsLine};
ghost use Rattle.gantt_report.specs.DwellTable as tables;

use crate::places::{push_number_right, push_right, push_signed_right};
use hoist_base::{Line, VisitId};
use std::alloc::{AllocError, Global};
use timetable::{Timetable, dwell, least_dwell};

// The bytes that the columns take.
const CARRIER_WIDTH: usize = 4;

const STAGE_WIDTH: usize = 3;

const TICKS_WIDTH: usize = 6;

#[tactic(auto, using(crate::proofs::Rows::one_more))]
/// The dwells of a legal timetable in ticks: for each visit of its carriers, by carrier and stage, the dwell, the least
/// and the greatest dwell of the stage, and the name of the tank that the carrier uses. At the stations the least
/// dwell is the line's time to load and to unload. A dash stands for a greatest dwell that isn't there.
pub fn dwell_table(alloc: Global, line: &Line, t: &Timetable) -> Result<Vec<u8>, AllocError>
    requires fits { FitsLine line.now t.now }
    requires legal { IsLegal line.now (timetable_of t.now) }
    ensures { IfOk result (λ text. text.items ≡ tables.dwell_text line.now (timetable_of t.now)) }
{
    let mut text = Vec::new(alloc);
    text.extend_from_slice(b"dwell\n")?;
    for c in 0..line.degree() {
        push_visits(&mut text, line, t, c)?;
    }
    Ok(text)
}

#[tactic(auto, using(crate::proofs::Rows::one_more))]
// The lines of a carrier, by stage.
fn push_visits(text: &mut Vec<u8>, line: &Line, t: &Timetable, c: u32) -> Result<(), AllocError>
    requires fits { FitsLine line.now t.now }
    requires legal { IsLegal line.now (timetable_of t.now) }
    requires there { c < line.now.degree }
    ensures { OnOk result (text.new.items ≡ text.old.items ++ tables.carrier_lines line.now (timetable_of t.now) c) }
{
    for stage in 0..line.stages().len() as u32 {
        push_visit(text, line, t, VisitId { carrier: c, stage })?;
    }
    Ok(())
}

// The line of a visit.
fn push_visit(text: &mut Vec<u8>, line: &Line, t: &Timetable, v: VisitId) -> Result<(), AllocError>
    requires fits { FitsLine line.now t.now }
    requires legal { IsLegal line.now (timetable_of t.now) }
    requires there { IsVisit line.now v.carrier v.stage }
    ensures { OnOk result (text.new.items ≡ text.old.items
        ++ tables.visit_line line.now (timetable_of t.now) v.carrier v.stage) }
{
    push_name(text, v)?;
    push_dwell(text, dwell(line, t, v))?;
    push_window(text, line, v.stage)?;
    push_tank(text, tank_name(line, t, v))
}

// The carrier and the stage of a visit.
fn push_name(text: &mut Vec<u8>, v: VisitId) -> Result<(), AllocError>
    ensures { OnOk result (text.new.items ≡ text.old.items ++ tables.visit_columns v.carrier v.stage) }
{
    push_number_right(text, CARRIER_WIDTH, v.carrier as u64)?;
    text.push(b' ')?;
    push_number_right(text, STAGE_WIDTH, v.stage as u64)
}

// The ticks of a dwell, in a column of their own.
fn push_dwell(text: &mut Vec<u8>, ticks: i64) -> Result<(), AllocError>
    ensures { OnOk result (text.new.items ≡ text.old.items ++ tables.column (signed_decimal ticks)) }
{
    text.push(b' ')?;
    push_signed_right(text, TICKS_WIDTH, ticks)
}

// The name of the tank that a carrier uses.
fn tank_name<'a>(line: &'a Line, t: &Timetable, v: VisitId) -> &'a [u8]
    requires fits { FitsLine line.now t.now }
    requires legal { IsLegal line.now (timetable_of t.now) }
    requires there { IsVisit line.now v.carrier v.stage }
    ensures { result.now ≡ (lines.tank line.now ((timetable_of t.now).tank v.carrier v.stage)).name }
{
    line.tanks()[t.tank(v) as usize].name.as_slice()
}

// The name of a tank, at the end of a line.
fn push_tank(text: &mut Vec<u8>, name: &[u8]) -> Result<(), AllocError>
    ensures { OnOk result (text.new.items ≡ text.old.items ++ (codes " " ++ (name.now ++ codes "\n"))) }
{
    text.push(b' ')?;
    text.extend_from_slice(name)?;
    text.extend_from_slice(b"\n")
}

// The least and the greatest dwell of a stage.
fn push_window(text: &mut Vec<u8>, line: &Line, k: u32) -> Result<(), AllocError>
    requires { IsStageOf line.now k }
    ensures { OnOk result (text.new.items ≡ text.old.items ++ tables.window_columns line.now k) }
{
    text.push(b' ')?;
    push_number_right(text, TICKS_WIDTH, least_dwell(line, k) as u64)?;
    text.push(b' ')?;
    match line.stages()[k as usize].max {
        None => push_right(text, TICKS_WIDTH, b"-"),
        Some(most) => push_number_right(text, TICKS_WIDTH, most as u64),
    }
}

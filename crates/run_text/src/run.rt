// The text of a run.
ghost use Rattle.std.specs.Prelude.{◌≡◌, ◌≤◌, ◌++◌, codes, decimal, flat_map, OnOk, IfOk};
ghost use Rattle.line_model.specs.Legal.{IsLegal};
ghost use Rattle.timetable.specs.TimetableData.{timetable_of, FitsLine};
ghost use Rattle.startup_rundown.specs.RunLog.{run_log};
ghost use Rattle.run_text.specs.RunText as texts;

use crate::events::push_events;
use hoist_base::Line;
use startup_rundown::drive;
use std::alloc::{AllocError, Global};
use text_writing::push_word_number;
use tick_machine::{Driver, Playing};
use timetable::Timetable;

/// The text of the run of the first 1 to 1,000 carriers of a legal timetable, as the tick machine plays it.
///
/// It has the number of the carriers, the ticks of the first put and of the last off, each event of the run in the
/// order of its log, and at the end that the line is empty.
pub fn run_text(
    alloc: Global,
    line: &Line,
    t: &Timetable,
    carriers: u64,
) -> Result<Vec<u8>, AllocError>
    requires fits { FitsLine line.now t.now }
    requires legal { IsLegal line.now (timetable_of t.now) }
    requires carriers { (1 ≤ carriers) × (carriers ≤ 1000) }
    ensures { IfOk result (λ text. text.items ≡ texts.run_text line.now (timetable_of t.now) carriers) }
{
    let runner = drive(line, t, carriers);
    let mut text = Vec::new(alloc);
    push_head(&mut text, carriers, runner.first(), runner.last())?;
    push_run(&mut text, alloc, line, t, carriers)?;
    text.extend_from_slice(b"empty\n")?;
    Ok(text)
}

// What happens in the run, in order: the machine makes no breach. The events of one tick alone are held at a time.
fn push_run(
    text: &mut Vec<u8>,
    alloc: Global,
    line: &Line,
    t: &Timetable,
    carriers: u64,
) -> Result<(), AllocError>
    requires fits { FitsLine line.now t.now }
    requires legal { IsLegal line.now (timetable_of t.now) }
    requires carriers { (1 ≤ carriers) × (carriers ≤ 1000) }
    ensures { OnOk result (text.new.items ≡ text.old.items
        ++ flat_map texts.event_line (run_log line.now (timetable_of t.now) carriers)) }
{
    let runner = drive(line, t, carriers);
    let mut playing = Playing::begin(alloc, line, &runner)?;
    let mut events = Vec::new(alloc);
    for _tick in runner.first()..runner.last() + 1 {
        events.clear();
        match playing.advance(&runner, &mut events)? {
            None => push_events(text, events.as_slice())?,
            Some(_) => unreachable!(),
        }
    }
    Ok(())
}

// How many carriers there are, and from when to when the run goes.
fn push_head(text: &mut Vec<u8>, carriers: u64, first: u64, last: u64) -> Result<(), AllocError>
    ensures { OnOk result (text.new.items ≡ text.old.items ++ (codes "run " ++ (decimal carriers ++ (codes "\nfrom " ++ (decimal first ++ (codes " to " ++ (decimal last ++ codes "\n"))))))) }
{
    push_word_number(text, b"run ", carriers)?;
    push_word_number(text, b"\nfrom ", first)?;
    push_word_number(text, b" to ", last)?;
    text.push(b'\n')?;
    Ok(())
}

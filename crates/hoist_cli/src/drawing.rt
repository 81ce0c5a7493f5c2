// The commands `run`, `chart` and `margin`, which play and draw the timetable of an answer and narrow its windows.
ghost use Rattle.std.specs.Prelude.{◌≡◌, ◌≤◌, Some, codes, MatchOption, ⊤, IfOk, IfErr};
ghost use Rattle.line_model.specs.Legal.{IsLegal};
ghost use Rattle.timetable.specs.TimetableData.{FitsLine, IsTimetableOf, timetable_of};
ghost use Rattle.answer_text.specs.Answers.{HasSmallPath};
ghost use Rattle.hoist_cli.specs.Reading.{reading, IsLineOf};
ghost use Rattle.hoist_cli.specs.Reply.{AfterLegal, TimetableReply, IsRunOf, IsChartOf, IsMarginOf};
ghost use Rattle.hoist_cli.specs.Stops.{Gives, Refuses};

use crate::files::line_and_answer;
use crate::replies::{Reply, Stop, refusal};
use crate::status::Status;
use check_text::fault_text;
use gantt_report::{chart, dwell_table};
use hoist_base::Line;
use outside::Shelf;
use run_text::run_text;
use std::alloc::{AllocError, Global};
use timetable::{Timetable, first_fault};
use window_margin::{margin, margin_text};

/// The stop where the timetable of an answer is rejected for this.
fn rejected(alloc: Global, why: &[u8]) -> Stop
    ensures { Refuses (IsLineOf Status.Negative (codes "rejected: ") why.now) result }
{
    refusal(alloc, Status::Negative, b"rejected: ", why)
}

/// The timetable of an answer, where it is there and legal; else the stop that says what is wrong.
fn legal_timetable(
    alloc: Global,
    line: &Line,
    timetable: Option<Timetable>,
) -> Result<Timetable, Stop>
    requires { MatchOption timetable ⊤ (λ t. IsTimetableOf line.now t × HasSmallPath t) }
    ensures there { IfOk result (λ t. timetable ≡ Some t) }
    ensures fits { IfOk result (λ t. FitsLine line.now t) }
    ensures legal { IfOk result (λ t. IsLegal line.now (timetable_of t)) }
    ensures refused { IfErr result (Refuses (AfterLegal line.now (λ _ _ _. ⊥) timetable)) }
{
    let Some(timetable) = timetable else {
        return Err(rejected(alloc, b"timetable missing"));
    };
    match first_fault(line, &timetable) {
        None => Ok(timetable),
        Some(fault) => {
            let why = fault_text(alloc, fault)?;
            Err(rejected(alloc, why.as_slice()))
        }
    }
}

/// The chart of a legal timetable, and then its dwell table.
fn drawn(alloc: Global, line: &Line, timetable: &Timetable) -> Result<Vec<u8>, AllocError>
    requires fits { FitsLine line.now timetable.now }
    requires legal { IsLegal line.now (timetable_of timetable.now) }
    ensures { IfOk result (λ text. IsChartOf line.now timetable.now text.items) }
{
    let mut text = chart(alloc, line, timetable)?;
    let table = dwell_table(alloc, line, timetable)?;
    text.extend_from_slice(table.as_slice())?;
    Ok(text)
}

/// The reply to a request to play the first 1 to 1,000 carriers of the timetable of an answer.
pub(crate) fn run_file<F: Shelf>(
    alloc: Global,
    file: &str,
    answer: &str,
    carriers: u32,
    shelf: &mut F,
) -> Result<Reply, Stop>
    requires { (1 ≤ carriers) × (carriers ≤ 1000) }
    ensures { Gives (TimetableReply (reading (F.files shelf.old) (F.faults shelf.old)
        (F.faults shelf.new)) file.now answer.now (IsRunOf carriers)) result }
{
    let (line, answer) = line_and_answer(alloc, file, answer, shelf)?;
    let timetable = legal_timetable(alloc, &line, answer.timetable)?;
    let text = run_text(alloc, &line, &timetable, carriers as u64)?;
    Ok(Reply {
        status: Status::Done,
        text,
    })
}

/// The reply to a request to draw the timetable of an answer.
pub(crate) fn chart_file<F: Shelf>(
    alloc: Global,
    file: &str,
    answer: &str,
    shelf: &mut F,
) -> Result<Reply, Stop>
    ensures { Gives (TimetableReply (reading (F.files shelf.old) (F.faults shelf.old)
        (F.faults shelf.new)) file.now answer.now IsChartOf) result }
{
    let (line, answer) = line_and_answer(alloc, file, answer, shelf)?;
    let timetable = legal_timetable(alloc, &line, answer.timetable)?;
    let text = drawn(alloc, &line, &timetable)?;
    Ok(Reply {
        status: Status::Done,
        text,
    })
}

/// The text of the margin of a legal timetable's windows.
fn margined(alloc: Global, line: &Line, timetable: &Timetable) -> Result<Vec<u8>, AllocError>
    requires fits { FitsLine line.now timetable.now }
    requires legal { IsLegal line.now (timetable_of timetable.now) }
    ensures { IfOk result (λ text. IsMarginOf line.now timetable.now text.items) }
{
    let read = margin(alloc, line, timetable)?;
    margin_text(alloc, &read)
}

/// The reply to a request for the margin of the windows of the timetable of an answer.
pub(crate) fn margin_file<F: Shelf>(
    alloc: Global,
    file: &str,
    answer: &str,
    shelf: &mut F,
) -> Result<Reply, Stop>
    ensures { Gives (TimetableReply (reading (F.files shelf.old) (F.faults shelf.old)
        (F.faults shelf.new)) file.now answer.now IsMarginOf) result }
{
    let (line, answer) = line_and_answer(alloc, file, answer, shelf)?;
    let timetable = legal_timetable(alloc, &line, answer.timetable)?;
    let text = margined(alloc, &line, &timetable)?;
    Ok(Reply {
        status: Status::Done,
        text,
    })
}

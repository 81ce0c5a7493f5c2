// An answer, and what is printed of it.
ghost use Rattle.std.specs.Prelude.{◌≡◌, Some, IfOk};
ghost use Rattle.timetable.specs.TimetableData.{timetable_of, FitsLine};
ghost use Rattle.answer_text.specs.Answers.{IsWritable};
ghost use Rattle.cert_checker.specs.Rules.{KeepsRules};
ghost use Rattle.hoist_cli.specs.Reading.{reading, AnswerReply};
ghost use Rattle.hoist_cli.specs.Stops.{Gives};
ghost use Rattle.report_cli.specs.Drawn.{IsTextIn, IsAnswered};

use answer_text::Answer;
use cert_checker::{Checked, check};
use check_text::checked_text;
use hoist_base::Line;
use hoist_cli::{Reply, Status, Stop, line_and_answer};
use outside::Shelf;
use report_json::json;
use report_page::page;
use report_words::{Asked, Form};
use std::alloc::{AllocError, Global};
use std::thread::Threads;
use timetable::Timetable;

/// The text, in a form, of an answer that keeps all rules and of its timetable.
fn text_in(
    alloc: Global,
    form: Form,
    line: &Line,
    answer: &Answer,
    t: &Timetable,
) -> Result<Vec<u8>, AllocError>
    requires timetable { answer.now.timetable ≡ Some t.now }
    requires fits { FitsLine line.now t.now }
    requires text { IsWritable line.now answer.now }
    requires kept { KeepsRules line.now answer.now }
    ensures { IfOk result (λ text. IsTextIn form line.now answer.now (timetable_of t.now) text.items) }
{
    match form {
        Form::Page => page(alloc, line, answer, t),
        Form::Json => json(alloc, line, answer, t),
    }
}

/// The reply that nothing is drawn, for this reason.
fn undrawn(text: Vec<u8>) -> Reply
    ensures { (result.status ≡ Status.Negative) × (result.text.items ≡ text.items) }
{
    Reply {
        status: Status::Negative,
        text,
    }
}

/// The reply to an answer, in the form that is asked for.
fn answered<R: Threads + Sync>(
    rt: &R,
    alloc: Global,
    form: Form,
    line: &Line,
    answer: &Answer,
) -> Result<Reply, AllocError>
    requires { IsWritable line.now answer.now }
    ensures { IfOk result (λ reply. IsAnswered form line.now answer.now reply.status reply.text.items) }
{
    let checked = check(rt, alloc, line, answer)?;
    let judged = checked_text(alloc, line.single(), &checked)?;
    if let Checked::Rejected(_) = checked {
        return Ok(undrawn(judged));
    }
    match &answer.timetable {
        None => {
            let mut text = Vec::from_slice(alloc, b"no timetable to draw: ")?;
            text.extend_from_slice(judged.as_slice())?;
            Ok(undrawn(text))
        }
        Some(t) => {
            let text = text_in(alloc, form, line, answer, t)?;
            Ok(Reply {
                status: Status::Done,
                text,
            })
        }
    }
}

/// The reply to a request for a report of the answer of a file to the line of another.
pub(crate) fn answer_file<R: Threads + Sync, F: Shelf>(
    rt: &R,
    alloc: Global,
    asked: Asked,
    shelf: &mut F,
) -> Result<Reply, Stop>
    ensures { Gives (AnswerReply (reading (F.files shelf.old) (F.faults shelf.old) (F.faults shelf.new))
        asked.entry.file.now asked.entry.answer.now (IsAnswered asked.entry.form)) result }
{
    let (line, answer) = line_and_answer(alloc, asked.file, asked.answer, shelf)?;
    let reply = answered(rt, alloc, asked.form, &line, &answer)?;
    Ok(reply)
}

// The command `check`.
ghost use Rattle.std.specs.Prelude.{◌≡◌, IfOk};
ghost use Rattle.answer_text.specs.Answers.{IsWritable};
ghost use Rattle.hoist_cli.specs.Reading.{reading, AnswerReply};
ghost use Rattle.hoist_cli.specs.Reply.{status_of_checked, IsJudged};
ghost use Rattle.hoist_cli.specs.Stops.{Gives};

use crate::files::line_and_answer;
use crate::replies::{Reply, Stop};
use crate::status::Status;
use answer_text::Answer;
use cert_checker::{Checked, check};
use check_text::checked_text;
use hoist_base::Line;
use outside::Shelf;
use std::alloc::{AllocError, Global};
use std::thread::Threads;

/// The status of what the checker answers.
fn status_on(checked: &Checked) -> Status
    ensures { result ≡ status_of_checked checked.now }
{
    match checked {
        Checked::Accepted(_) => Status::Done,
        Checked::Rejected(_) => Status::Negative,
    }
}

/// The reply to an answer.
fn judged<R: Threads + Sync>(
    rt: &R,
    alloc: Global,
    line: &Line,
    answer: &Answer,
) -> Result<Reply, AllocError>
    requires { IsWritable line.now answer.now }
    ensures { IfOk result (λ reply. IsJudged line.now answer.now reply.status reply.text.items) }
{
    let checked = check(rt, alloc, line, answer)?;
    let text = checked_text(alloc, line.single(), &checked)?;
    let status = status_on(&checked);
    Ok(Reply { status, text })
}

/// The reply to a request to check the answer of a file to the line of another.
pub(crate) fn check_file<R: Threads + Sync, F: Shelf>(
    rt: &R,
    alloc: Global,
    file: &str,
    answer: &str,
    shelf: &mut F,
) -> Result<Reply, Stop>
    ensures { Gives (AnswerReply (reading (F.files shelf.old) (F.faults shelf.old)
        (F.faults shelf.new)) file.now answer.now IsJudged) result }
{
    let (line, answer) = line_and_answer(alloc, file, answer, shelf)?;
    let reply = judged(rt, alloc, &line, &answer)?;
    Ok(reply)
}

// Proposed bytes, and what is printed for them.
ghost use Rattle.std.specs.Prelude.{◌≡◌, Some, IfSome, IfOk};
ghost use Rattle.line_model.specs.Legal.{NoneBelow};
ghost use Rattle.answer_text.specs.declared.answer.Answer.{Answer};
ghost use Rattle.answer_text.specs.Answers.{answer_text};
ghost use Rattle.solve_line.specs.AnswerOf.{IsSolution};
ghost use Rattle.hoist_cli.specs.Solved.{status_of};
ghost use Rattle.prove_cli.specs.Proved.{IsKept, IsProved};

use answer_read::{AnswerRead, read_answer};
use answer_text::{Verdict, write_answer};
use cert_checker::{Checked, check};
use hoist_base::Line;
use hoist_cli::{ANSWER_LIMIT, Reply, Status, status_on};
use solve_line::solve_alone;
use std::alloc::{AllocError, Global};
use std::thread::Threads;

/// The verdict of the answer to the line whose text these bytes are, where the checker accepts it.
fn accepted<R: Threads + Sync>(
    rt: &R,
    alloc: Global,
    line: &Line,
    bytes: &[u8],
) -> Result<Option<Verdict>, AllocError>
    ensures kept { IfOk result (λ v. IfSome v
        (λ verdict. (a : Answer) × IsKept line.now bytes.now a × NoneBelow line.now a.bound × (verdict ≡ a.verdict))) }
    ensures only { (a : Answer) → IsKept line.now bytes.now a → IfOk result (λ v. v ≡ Some a.verdict) }
{
    if bytes.len() as u64 > ANSWER_LIMIT {
        return Ok(None);
    }
    let AnswerRead::Ready(answer) = read_answer(alloc, line, bytes)? else {
        return Ok(None);
    };
    match check(rt, alloc, line, &answer)? {
        Checked::Accepted(_) => Ok(Some(answer.verdict)),
        Checked::Rejected(_) => Ok(None),
    }
}

/// The reply without a search: the answer of `solve` with a budget of no splits, which is open.
fn unsearched(alloc: Global, line: &Line) -> Result<Reply, AllocError>
    ensures proved { IfOk result (λ reply. IsProved line.now reply.status reply.text.items) }
    ensures open { IfOk result (λ reply. reply.status ≡ Status.Unfinished) }
    ensures solution { IfOk result (λ reply. (a : Answer) × IsSolution line.now 0 a
        × (reply.text.items ≡ answer_text line.now a)) }
{
    let answer = solve_alone(alloc, line, 0)?;
    let text = write_answer(alloc, line, &answer)?;
    Ok(Reply {
        status: Status::Unfinished,
        text,
    })
}

/// The reply to a valid line for which these bytes are proposed, whatever they are: the bytes, with the status of the
/// verdict, exactly where they are the text of an answer to the line that keeps every rule of the checker; else the
/// answer of `solve` with a budget of no splits, with the status `Unfinished`.
pub fn settle<R: Threads + Sync>(
    rt: &R,
    alloc: Global,
    line: &Line,
    bytes: Vec<u8>,
) -> Result<Reply, AllocError>
    ensures proved { IfOk result (λ reply. IsProved line.now reply.status reply.text.items) }
    ensures kept { (a : Answer) → IsKept line.now bytes.items a
        → IfOk result (λ reply. (reply.text.items ≡ bytes.items) × (reply.status ≡ status_of a.verdict)) }
    ensures other { ((a : Answer) → IsKept line.now bytes.items a → ⊥)
        → IfOk result (λ reply. (reply.status ≡ Status.Unfinished)
        × ((a : Answer) × IsSolution line.now 0 a × (reply.text.items ≡ answer_text line.now a))) }
{
    match accepted(rt, alloc, line, bytes.as_slice())? {
        Some(verdict) => Ok(Reply {
            status: status_on(verdict),
            text: bytes,
        }),
        None => unsearched(alloc, line),
    }
}

// The command `drill`.
ghost use Rattle.std.specs.Prelude.{◌≡◌, ◌≤◌, ◌++◌, MatchOption, ⊤, IfSome, OnOk, IfOk};
ghost use Rattle.line_model.specs.Legal.{IsLegal};
ghost use Rattle.timetable.specs.TimetableData.{IsTimetableOf, timetable_of};
ghost use Rattle.hoist_base.specs.Valid.{IsLine};
ghost use Rattle.answer_text.specs.Answers.{HasSmallPath, IsWritable};
ghost use Rattle.answer_read.specs.Answers.{IsAnswer};
ghost use Rattle.answer_read.specs.Same.{SayTheSame};
ghost use Rattle.cert_checker.specs.declared.reason.Reason.{Reason};
ghost use Rattle.cert_checker.specs.Reasons.{HasReason, split_count};
ghost use Rattle.read_back.specs.Laws.{many_splits};
ghost use Rattle.line_gen.specs.Generated.{generated};
ghost use Rattle.hoist_cli.specs.Drill as drills;

use crate::replies::Reply;
use crate::status::Status;
use answer_read::{AnswerRead, read_answer};
use answer_text::{Answer, write_answer};
use cert_checker::{Checked, check};
use hoist_base::Line;
use line_gen::line_of;
use line_text::{LineRead, read_line, write_line};
use outside::Gate;
use solve_line::solve;
use startup_rundown::drive;
use std::alloc::{AllocError, Global};
use std::thread::Threads;
use text_writing::{Worded, push_number, push_word_number};
use tick_machine::{Driver, Played, play};
use timetable::Timetable;

/// The splits that a drill may spend, and its workers.
const BUDGET: u32 = 400;

const WORKERS: u32 = 4;

/// How many carriers a drill runs.
const CARRIERS: u64 = 5;

/// The line of a seed, as it is read from its line file.
fn line_read(alloc: Global, seed: u32) -> Result<Line, AllocError>
    ensures made { IfOk result (λ line. line ≡ generated seed) }
    ensures valid { IfOk result (λ line. IsLine line) }
{
    let line = line_of(alloc, seed)?;
    let text = write_line(alloc, &line)?;
    match read_line(alloc, text.as_slice())? {
        LineRead::Ready(line) => Ok(line),
        LineRead::Refused(_) => unreachable!(),
    }
}

/// The answer as it is read back from its text.
fn written_and_read(alloc: Global, line: &Line, answer: &Answer) -> Result<Answer, AllocError>
    requires valid { IsLine line.now }
    requires answer { IsAnswer line.now answer.now }
    requires few { split_count answer.now.tree ≤ many_splits }
    ensures answer { IfOk result (λ back. IsAnswer line.now back) }
    ensures same { IfOk result (λ back. SayTheSame answer.now back) }
{
    let text = write_answer(alloc, line, answer)?;
    match read_answer(alloc, line, text.as_slice())? {
        AnswerRead::Ready(back) => Ok(back),
        AnswerRead::Broken { .. } => unreachable!(),
    }
}

/// Checks an answer that is known to be right.
fn accept<R: Threads + Sync>(
    rt: &R,
    alloc: Global,
    line: &Line,
    answer: &Answer,
) -> Result<(), AllocError>
    requires writable { IsWritable line.now answer.now }
    requires right { (r : Reason) → HasReason line.now answer.now r → ⊥ }
{
    match check(rt, alloc, line, answer)? {
        Checked::Accepted(_) => Ok(()),
        Checked::Rejected(_) => unreachable!(),
    }
}

/// Writes the line of a drill.
fn push_made(text: &mut Vec<u8>, seed: u32, line: &Line) -> Result<(), AllocError>
    ensures { OnOk result (text.new.items ≡ text.old.items ++ drills.made_text seed line.now) }
{
    push_word_number(text, b"drill ", seed as u64)?;
    push_word_number(text, b"\nstages ", line.stages().len() as u64)?;
    push_word_number(text, b"\nhoists ", line.hoists() as u64)
}

/// Writes the answer of a drill.
fn push_found(text: &mut Vec<u8>, answer: &Answer) -> Result<(), AllocError>
    ensures { OnOk result (text.new.items ≡ text.old.items ++ drills.found_text answer.now) }
{
    text.extend_from_slice(b"\nverdict ")?;
    text.extend_from_slice(answer.verdict.word())?;
    push_word_number(text, b"\nbound ", answer.bound as u64)?;
    push_word_number(text, b"\nsplits ", answer.splits as u64)?;
    text.extend_from_slice(b"\nperiod ")?;
    match &answer.timetable {
        None => text.extend_from_slice(b"none"),
        Some(timetable) => push_number(text, timetable.period() as u64),
    }
}

/// Plays the timetable of a drill, where there is one, and writes to which tick.
fn push_played(
    text: &mut Vec<u8>,
    alloc: Global,
    line: &Line,
    timetable: &Option<Timetable>,
) -> Result<(), AllocError>
    requires fits { MatchOption timetable.now ⊤ (λ t. IsTimetableOf line.now t × HasSmallPath t) }
    requires legal { IfSome timetable.now (λ t. IsLegal line.now (timetable_of t)) }
    ensures { OnOk result (text.new.items ≡ text.old.items ++ drills.played_text line.now timetable.now) }
{
    let Some(timetable) = timetable else {
        return text.extend_from_slice(b"none");
    };
    let runner = drive(line, timetable, CARRIERS);
    match play(alloc, line, &runner)? {
        Played::Done { .. } => push_word_number(text, b"5 to ", runner.last()),
        Played::Refused { .. } => unreachable!(),
    }
}

/// The text of a drill.
fn told(alloc: Global, seed: u32, line: &Line, answer: &Answer) -> Result<Vec<u8>, AllocError>
    requires fits { IsWritable line.now answer.now }
    requires legal { IfSome answer.now.timetable (λ t. IsLegal line.now (timetable_of t)) }
    ensures { IfOk result (λ text. text.items ≡ drills.drill_text seed line.now answer.now) }
{
    let mut text = Vec::new(alloc);
    push_made(&mut text, seed, line)?;
    push_found(&mut text, answer)?;
    text.extend_from_slice(b"\ncheck accepted\nrun ")?;
    push_played(&mut text, alloc, line, &answer.timetable)?;
    text.push(b'\n')?;
    Ok(text)
}

/// The reply to a request for the drill of a seed.
pub(crate) fn drill<R: Threads + Sync, G: Gate>(
    rt: &R,
    alloc: Global,
    seed: u32,
    gate: &G,
) -> Result<Reply, AllocError>
    ensures { IfOk result (λ reply. drills.DrillReply seed reply.status reply.text.items) }
{
    let line = line_read(alloc, seed)?;
    let solved = solve(rt, alloc, &line, BUDGET, WORKERS, gate)?;
    let answer = written_and_read(alloc, &line, &solved)?;
    accept(rt, alloc, &line, &answer)?;
    let text = told(alloc, seed, &line, &answer)?;
    Ok(Reply {
        status: Status::Done,
        text,
    })
}

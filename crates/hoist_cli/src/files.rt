// The files that a request names.
ghost use Rattle.std.specs.Prelude.{◌≡◌, ◌≤◌, IfOk, IfErr, decimal};
ghost use Rattle.outside.specs.Count.{Rose};
ghost use Rattle.hoist_cli.specs.Reading.{
  reading,
  IsFile,
  IsFileRefusal,
  IsLineOf,
  IsLineIn,
  IsLineStop,
  IsAnswerIn,
  IsAnswerStop,
  AnswerReply,
};
ghost use Rattle.hoist_cli.specs.Stops.{Refuses};

use crate::replies::{Stop, refusal};
use crate::status::Status;
use answer_read::{AnswerRead, read_answer};
use answer_text::Answer;
use hoist_base::Line;
use itoa::Buffer;
use line_text::{LineRead, read_line, refusal_text};
use outside::{Shelf, ShelfFault};
use std::alloc::Global;

/// The most bytes that a line file and a list have.
pub(crate) const LINE_LIMIT: u64 = 65_536;

/// The most bytes that an answer file and a log have.
pub const ANSWER_LIMIT: u64 = 1 << 30;

/// The bytes of the file of this name, where it has at most `limit`.
pub(crate) fn fetch<F: Shelf>(
    alloc: Global,
    name: &str,
    limit: u64,
    shelf: &mut F,
) -> Result<Vec<u8>, Stop>
    ensures file { IfOk result (λ bytes. IsFile (F.files shelf.old) name.now limit bytes.items) }
    ensures refused { IfErr result (Refuses (IsFileRefusal
        (reading (F.files shelf.old) (F.faults shelf.old) (F.faults shelf.new)) name.now limit)) }
    ensures same { F.files shelf.new ≡ F.files shelf.old }
    ensures later { F.faults shelf.old ≤ F.faults shelf.new }
{
    match shelf.read(alloc, name, limit) {
        Ok(bytes) => Ok(bytes),
        Err(ShelfFault::Failed) => Err(refusal(
            alloc,
            Status::Read,
            b"read fault: ",
            name.as_bytes(),
        )),
        Err(ShelfFault::TooLong) => Err(refusal(
            alloc,
            Status::Long,
            b"too long: ",
            name.as_bytes(),
        )),
        Err(ShelfFault::Memory(_)) => Err(Stop::Memory),
    }
}

/// The line of the file of this name; else the stop that says why there is none.
pub fn line_in<F: Shelf>(alloc: Global, file: &str, shelf: &mut F) -> Result<Line, Stop>
    ensures line { IfOk result (λ l. IsLineIn (F.files shelf.old) file.now l) }
    ensures refused { IfErr result (Refuses (IsLineStop
        (reading (F.files shelf.old) (F.faults shelf.old) (F.faults shelf.new)) file.now)) }
    ensures same { F.files shelf.new ≡ F.files shelf.old }
    ensures later { F.faults shelf.old ≤ F.faults shelf.new }
{
    let bytes = fetch(alloc, file, LINE_LIMIT, shelf)?;
    match read_line(alloc, bytes.as_slice())? {
        LineRead::Ready(line) => Ok(line),
        LineRead::Refused(why) => {
            let why = refusal_text(alloc, &why)?;
            Err(refusal(alloc, Status::Line, b"line refused: ", why.as_slice()))
        }
    }
}

/// The stop with a word and the byte at which a file breaks.
pub(crate) fn broken_at(alloc: Global, word: &[u8], offset: u64) -> Stop
    ensures { Refuses (IsLineOf Status.Broken word.now (decimal offset)) result }
{
    let mut buffer = Buffer::new();
    refusal(
        alloc,
        Status::Broken,
        word,
        buffer.format(offset).as_bytes(),
    )
}

/// The answer to a line whose text is the file of this name.
fn answer_in<F: Shelf>(
    alloc: Global,
    line: &Line,
    file: &str,
    shelf: &mut F,
) -> Result<Answer, Stop>
    ensures answer { IfOk result (λ a. IsAnswerIn (F.files shelf.old) line.now file.now a) }
    ensures refused { IfErr result (Refuses (IsAnswerStop
        (reading (F.files shelf.old) (F.faults shelf.old) (F.faults shelf.new)) line.now file.now)) }
{
    let bytes = fetch(alloc, file, ANSWER_LIMIT, shelf)?;
    match read_answer(alloc, line, bytes.as_slice())? {
        AnswerRead::Ready(answer) => Ok(answer),
        AnswerRead::Broken { offset } => {
            Err(broken_at(alloc, b"answer broken at byte ", offset))
        }
    }
}

/// The line of one file and the answer to it of another; else the stop that says which of them is none, and why.
pub fn line_and_answer<F: Shelf>(
    alloc: Global,
    file: &str,
    answer: &str,
    shelf: &mut F,
) -> Result<(Line, Answer), Stop>
    ensures line { IfOk result (λ x. IsLineIn (F.files shelf.old) file.now x.0) }
    ensures answer { IfOk result (λ x. IsAnswerIn (F.files shelf.old) x.0 answer.now x.1) }
    ensures refused { IfErr result (Refuses (AnswerReply
        (reading (F.files shelf.old) (F.faults shelf.old) (F.faults shelf.new)) file.now answer.now (λ _ _ _ _. ⊥))) }
{
    let line = line_in(alloc, file, shelf)?;
    let answer = answer_in(alloc, &line, answer, shelf)?;
    Ok((line, answer))
}

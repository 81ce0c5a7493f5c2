// The call that does all that the program does.
ghost use Rattle.std.specs.Prelude.{◌≡◌, ℕ, ◌≤◌, ◌⊎◌, List, take, length, IfOk};
ghost use Rattle.outside.specs.Count.{Rose};
ghost use Rattle.outside.specs.Sink.{appended};
ghost use Rattle.hoist_words.specs.Request.{words_of};
ghost use Rattle.hoist_cli.specs.Reading.{reading};
ghost use Rattle.hoist_cli.specs.Stops.{Gives};
ghost use Rattle.report_words.specs.Request.{AskNoReport};
ghost use Rattle.report_cli.specs.Meaning.{IsReported, IsUnreported};
ghost use Rattle.report_cli.specs.Reply.{usage, IsReply};

use crate::drawing::answer_file;
use hoist_cli::{Reply, Status, Stop, settled};
use outside::{Shelf, Sink, WriteEnd, write_all};
use report_words::read_words;
use std::alloc::{AllocError, Global};
use std::thread::Threads;

/// The usage of the program.
fn usage_reply(alloc: Global) -> Result<Reply, AllocError>
    ensures { IfOk result (λ reply. (reply.status ≡ Status.Words) × (reply.text.items ≡ usage)) }
{
    Ok(Reply {
        status: Status::Words,
        text: Vec::from_slice(alloc, b"usage: hoist_report [--json] FILE ANSWER\n")?,
    })
}

/// The reply to the words of the program.
fn reply_to<R: Threads + Sync, F: Shelf>(
    rt: &R,
    alloc: Global,
    words: &[String],
    shelf: &mut F,
) -> Result<Reply, Stop>
    ensures { Gives (IsReply (reading (F.files shelf.old) (F.faults shelf.old) (F.faults shelf.new))
        (words_of words.now)) result }
{
    match read_words(words) {
        Some(asked) => answer_file(rt, alloc, asked, shelf),
        None => {
            let reply = usage_reply(alloc)?;
            Ok(reply)
        }
    }
}

/// Runs the program over these words: reads the line and the answer that they name from the shelf, has the answer
/// checked, and writes the page or the document of JSON, or what is wrong, to the sink. The whole text is built before
/// the first byte is written.
///
/// - `Done`: the answer keeps every rule of the checker and has a timetable. That timetable is legal tick by tick, no
///   legal timetable has a period below the answer's bound, and where the verdict says `optimal` none has a smaller
///   period. The printed text is that of the line, the answer and the timetable, in the form that the words ask for; a
///   page is well-formed.
/// - `Negative`: the answer is rejected, and the line that `hoist check` prints for it was printed; or it is accepted
///   and has no timetable to draw, and that was printed.
/// - `Words`: the words ask for nothing that the program does, and the usage was printed.
///
/// Files that are refused have the statuses and the lines that `hoist` has for them. Want of memory may be answered
/// instead of anything else; `Unfinished` is never answered.
pub fn report<R: Threads + Sync, F: Shelf, K: Sink>(
    rt: &R,
    alloc: Global,
    words: &[String],
    shelf: &mut F,
    sink: &mut K,
) -> Status
    ensures done { result ≡ Status.Done
        → IsReported (reading (F.files shelf.old) (F.faults shelf.old) (F.faults shelf.new))
        (words_of words.now) (K.written sink.old) (K.written sink.new) }
    ensures negative { result ≡ Status.Negative
        → IsUnreported (reading (F.files shelf.old) (F.faults shelf.old) (F.faults shelf.new))
        (words_of words.now) (K.written sink.old) (K.written sink.new) }
    ensures reply { (result ≡ Status.Write) ⊎ ((result ≡ Status.Memory)
        ⊎ ((text : List ℕ)
        × IsReply (reading (F.files shelf.old) (F.faults shelf.old) (F.faults shelf.new))
        (words_of words.now) result text
        × (K.written sink.new ≡ appended (K.written sink.old) text))) }
    ensures words { result ≡ Status.Words → AskNoReport (words_of words.now) }
    ensures nothing { AskNoReport (words_of words.now) → (result ≡ Status.Words)
        ⊎ ((result ≡ Status.Write) ⊎ (result ≡ Status.Memory)) }
    ensures finished { result ≡ Status.Unfinished → ⊥ }
    ensures read { result ≡ Status.Read → Rose (F.faults shelf.old) (F.faults shelf.new) }
    ensures write { result ≡ Status.Write → Rose (K.faults sink.old) (K.faults sink.new) }
    ensures memory { result ≡ Status.Memory → (K.written sink.new ≡ K.written sink.old)
        ⊎ Rose (K.wants sink.old) (K.wants sink.new) }
    ensures prefix { (result ≡ Status.Write) ⊎ (result ≡ Status.Memory)
        → (K.written sink.new ≡ K.written sink.old) ⊎ ((status : Status) × (text : List ℕ) × (n : ℕ)
        × IsReply (reading (F.files shelf.old) (F.faults shelf.old) (F.faults shelf.new))
        (words_of words.now) status text
        × (n ≤ length text) × (K.written sink.new ≡ appended (K.written sink.old) (take n text))) }
{
    let Some(reply) = settled(reply_to(rt, alloc, words, shelf)) else {
        return Status::Memory;
    };
    match write_all(sink, reply.text.as_slice()) {
        WriteEnd::Whole => reply.status,
        WriteEnd::Fault => Status::Write,
        WriteEnd::Memory => Status::Memory,
    }
}

// The call that does all that the program does.
ghost use Rattle.std.specs.Prelude.{◌≡◌, ℕ, ◌≤◌, ◌⊎◌, List, take, length, IfOk};
ghost use Rattle.outside.specs.Count.{Rose};
ghost use Rattle.outside.specs.Sink.{appended};
ghost use Rattle.hoist_words.specs.Request.{words_of};
ghost use Rattle.hoist_cli.specs.Reading.{reading, AfterLine};
ghost use Rattle.hoist_cli.specs.Stops.{Gives};
ghost use Rattle.prove_cli.specs.Meaning.{IsProveRun};
ghost use Rattle.prove_cli.specs.Proved.{IsProved};
ghost use Rattle.prove_cli.specs.Reply.{usage, IsReply};
ghost use Rattle.prove_words.specs.Request.{AskNoProof};

use crate::settling::settle;
use answer_text::Verdict;
use hoist_cli::{Reply, Status, Stop, line_in, settled};
use outside::{Shelf, Sink, WriteEnd, write_all};
use proof_search::propose;
use prove_words::read_words;
use std::alloc::{AllocError, Global};
use std::thread::Threads;

/// The usage of the program.
fn usage_reply(alloc: Global) -> Result<Reply, AllocError>
    ensures { IfOk result (λ reply. (reply.status ≡ Status.Words) × (reply.text.items ≡ usage)) }
{
    Ok(Reply {
        status: Status::Words,
        text: Vec::from_slice(alloc, b"usage: hoist_prove FILE [--nodes N]\n")?,
    })
}

/// The reply to a request for a proof for the line of a file, whose search expands at most `nodes` nodes.
fn prove_file<R: Threads + Sync, F: Shelf>(
    rt: &R,
    alloc: Global,
    file: &str,
    nodes: u32,
    shelf: &mut F,
) -> Result<Reply, Stop>
    requires { nodes ≤ 1000000000 }
    ensures { Gives (AfterLine
        (reading (F.files shelf.old) (F.faults shelf.old) (F.faults shelf.new)) file.now IsProved) result }
{
    let line = line_in(alloc, file, shelf)?;
    let bytes = propose(alloc, &line, nodes)?;
    let reply = settle(rt, alloc, &line, bytes)?;
    Ok(reply)
}

/// The reply to the words of the program.
fn reply_to<R: Threads + Sync, F: Shelf>(
    rt: &R,
    alloc: Global,
    words: &[String],
    shelf: &mut F,
) -> Result<Reply, Stop>
    ensures { Gives (IsReply (reading (F.files shelf.old) (F.faults shelf.old) (F.faults shelf.new))
        (words_of words.now)) result }
{
    match read_words(words) {
        Some(asked) => prove_file(rt, alloc, asked.file, asked.nodes, shelf),
        None => {
            let reply = usage_reply(alloc)?;
            Ok(reply)
        }
    }
}

/// Runs the program over these words: reads the line file that they name from the shelf, has an answer to it proposed,
/// checks it, and writes it, or what is wrong, to the sink. The whole text is built before the first byte is written.
///
/// - `Done`: the printed text is that of an answer to the line that keeps every rule of the checker. Its timetable is
///   legal tick by tick; every carrier of every run of it keeps its windows; no legal timetable of the line has a
///   smaller period; and the printed tree of constraint cycles proves this.
/// - `Negative`: the same text, of an answer without a timetable: no legal timetable has a period up to the line's
///   greatest.
/// - `Unfinished`: the same text, of an open answer: no legal timetable has a period below the printed bound, and the
///   printed timetable, where there is one, is legal.
///
/// Nothing of this rests on the proposal: what the checker doesn't accept isn't printed, but an open answer without a
/// search. Want of memory may be answered instead of anything else; `Broken` is never answered.
pub fn hoist_prove<R: Threads + Sync, F: Shelf, K: Sink>(
    rt: &R,
    alloc: Global,
    words: &[String],
    shelf: &mut F,
    sink: &mut K,
) -> Status
    ensures done { result ≡ Status.Done
        → IsProveRun Verdict.Optimal (reading (F.files shelf.old) (F.faults shelf.old) (F.faults shelf.new))
        (words_of words.now) (K.written sink.old) (K.written sink.new) }
    ensures negative { result ≡ Status.Negative
        → IsProveRun Verdict.Nothing (reading (F.files shelf.old) (F.faults shelf.old) (F.faults shelf.new))
        (words_of words.now) (K.written sink.old) (K.written sink.new) }
    ensures unfinished { result ≡ Status.Unfinished
        → IsProveRun Verdict.Unfinished (reading (F.files shelf.old) (F.faults shelf.old) (F.faults shelf.new))
        (words_of words.now) (K.written sink.old) (K.written sink.new) }
    ensures reply { (result ≡ Status.Write) ⊎ ((result ≡ Status.Memory)
        ⊎ ((text : List ℕ)
        × IsReply (reading (F.files shelf.old) (F.faults shelf.old) (F.faults shelf.new))
        (words_of words.now) result text
        × (K.written sink.new ≡ appended (K.written sink.old) text))) }
    ensures words { result ≡ Status.Words → AskNoProof (words_of words.now) }
    ensures nothing { AskNoProof (words_of words.now) → (result ≡ Status.Words)
        ⊎ ((result ≡ Status.Write) ⊎ (result ≡ Status.Memory)) }
    ensures unbroken { result ≡ Status.Broken → ⊥ }
    ensures read { result ≡ Status.Read → Rose (F.faults shelf.old) (F.faults shelf.new) }
    ensures write { result ≡ Status.Write → Rose (K.faults sink.old) (K.faults sink.new) }
    ensures memory { result ≡ Status.Memory → (K.written sink.new ≡ K.written sink.old)
        ⊎ Rose (K.wants sink.old) (K.wants sink.new) }
    ensures prefix { (result ≡ Status.Write) ⊎ (result ≡ Status.Memory)
        → (K.written sink.new ≡ K.written sink.old) ⊎ ((status : Status) × (text : List ℕ) × (n : ℕ)
        × IsReply (reading (F.files shelf.old) (F.faults shelf.old) (F.faults shelf.new))
        (words_of words.now) status text
        × (n ≤ length text) × (K.written sink.new ≡ appended (K.written sink.old) (take n text))) }
{
    let Some(reply) = settled(reply_to(rt, alloc, words, shelf)) else {
        return Status::Memory;
    };
    match write_all(sink, reply.text.as_slice()) {
        WriteEnd::Whole => reply.status,
        WriteEnd::Fault => Status::Write,
        WriteEnd::Memory => Status::Memory,
    }
}

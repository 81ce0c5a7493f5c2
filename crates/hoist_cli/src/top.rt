// The call that does all that the program does.
ghost use Rattle.std.specs.Prelude.{◌≡◌, ℕ, ◌≤◌, ◌⊎◌, List, take, length};
ghost use Rattle.outside.specs.Count.{Rose};
ghost use Rattle.outside.specs.Sink.{appended};
ghost use Rattle.hoist_words.specs.Request.{words_of, AskNothing};
ghost use Rattle.hoist_cli.specs.Meaning.{IsDone, IsNegative, IsOpen};
ghost use Rattle.hoist_cli.specs.Reading.{reading};
ghost use Rattle.hoist_cli.specs.Reply.{IsReply};
ghost use Rattle.hoist_cli.specs.Stops.{Gives};

use crate::batching::batch_file;
use crate::checking::check_file;
use crate::drawing::{chart_file, margin_file, run_file};
use crate::drilling::drill;
use crate::following::follow_file;
use crate::replies::{Reply, Stop, settled, usage_reply};
use crate::solving::solve_file;
use crate::status::Status;
use crate::sweeping::{Scope, sweep_file};
use hoist_words::{Request, read_words};
use outside::{Gate, Shelf, Sink, WriteEnd, write_all};
use std::alloc::Global;
use std::thread::Threads;

/// The reply to the words of the program.
fn reply_to<R: Threads + Sync, F: Shelf, G: Gate>(
    rt: &R,
    alloc: Global,
    words: &[String],
    shelf: &mut F,
    gate: &G,
) -> Result<Reply, Stop>
    ensures { Gives (IsReply (reading (F.files shelf.old) (F.faults shelf.old) (F.faults shelf.new))
        (words_of words.now)) result }
{
    let Some(request) = read_words(alloc, words)? else {
        let reply = usage_reply(alloc)?;
        return Ok(reply);
    };
    match request {
        Request::Solve {
            file,
            budget,
            workers,
        } => solve_file(rt, alloc, file.as_str(), budget, workers, shelf, gate),
        Request::Check { file, answer } => {
            check_file(rt, alloc, file.as_str(), answer.as_str(), shelf)
        }
        Request::Run {
            file,
            answer,
            carriers,
        } => run_file(alloc, file.as_str(), answer.as_str(), carriers, shelf),
        Request::Chart { file, answer } => {
            chart_file(alloc, file.as_str(), answer.as_str(), shelf)
        }
        Request::Drill { seed } => {
            let reply = drill(rt, alloc, seed, gate)?;
            Ok(reply)
        }
        Request::Sweep {
            file,
            upto,
            budget,
            workers,
        } => {
            let scope = Scope {
                upto,
                budget,
                workers,
            };
            sweep_file(rt, alloc, file.as_str(), scope, shelf, gate)
        }
        Request::Margin { file, answer } => {
            margin_file(alloc, file.as_str(), answer.as_str(), shelf)
        }
        Request::Follow { file, log } => follow_file(alloc, file.as_str(), log.as_str(), shelf),
        Request::Batch {
            list,
            budget,
            workers,
        } => batch_file(rt, alloc, list.as_str(), budget, workers, shelf, gate),
    }
}

/// Runs the program over these words: reads the files that they name from the shelf, and writes the answer, or what is
/// wrong, to the sink. The whole text is built before the first byte is written.
///
/// - `solve` with the status `Done`: the printed text is that of the answer of the search, whose timetable is legal
///   tick by tick; every carrier of every run of it keeps its windows; no legal timetable of the line has a smaller
///   period; and the printed tree of constraint cycles proves this. With `Negative` no legal timetable has a period up
///   to the line's greatest; with `Unfinished` the budget was spent and is less than one that is enough for the line,
///   and none has a period below the printed bound.
/// - `check` with the status `Done`: the answer's timetable, where it has one, is legal, its tree proves its bound, and
///   so no legal timetable of the line has a smaller period. With `Negative` the first reason to reject it is printed.
/// - `run`, `chart` and `margin` with the status `Done`: the answer's timetable is legal, and the log of its run, or
///   its chart and then its dwell table, or the margin of its windows, is printed. With `Negative` the answer has no
///   timetable, or an illegal one, whose first fault is printed. The tree of the answer isn't looked at.
/// - `drill`, always with the status `Done`: the printed text is that of the line of the seed and of its answer.
/// - `sweep`: the printed text is that of the answers at each degree, and no legal timetable of a degree has a period
///   below the bound of its row. With `Done` no row is open, and no legal timetable of these degrees, of a period that
///   the line allows, has less period for each carrier than the best; with `Negative` no row is open and none has a
///   timetable; with `Unfinished` a row is open.
/// - `follow` with the status `Done`: the log keeps every rule of the machine up to its last tick. With `Negative` the
///   first tick at which it departs from them is printed, and how.
/// - `batch` with the status `Done`: for each file of the list, in its order, what is printed is what `solve` prints
///   for that file and budget, with its status.
///
/// Want of memory may be answered instead of anything else.
pub fn hoist<R: Threads + Sync, F: Shelf, K: Sink, G: Gate>(
    rt: &R,
    alloc: Global,
    words: &[String],
    shelf: &mut F,
    sink: &mut K,
    gate: &G,
) -> Status
    ensures done { result ≡ Status.Done
        → IsDone (reading (F.files shelf.old) (F.faults shelf.old) (F.faults shelf.new)) (words_of words.now)
        (K.written sink.old) (K.written sink.new) }
    ensures negative { result ≡ Status.Negative
        → IsNegative (reading (F.files shelf.old) (F.faults shelf.old) (F.faults shelf.new)) (words_of words.now)
        (K.written sink.old) (K.written sink.new) }
    ensures unfinished { result ≡ Status.Unfinished
        → IsOpen (reading (F.files shelf.old) (F.faults shelf.old) (F.faults shelf.new)) (words_of words.now)
        (K.written sink.old) (K.written sink.new) }
    ensures reply { (result ≡ Status.Write) ⊎ ((result ≡ Status.Memory)
        ⊎ ((text : List ℕ)
        × IsReply (reading (F.files shelf.old) (F.faults shelf.old) (F.faults shelf.new))
        (words_of words.now) result text
        × (K.written sink.new ≡ appended (K.written sink.old) text))) }
    ensures words { result ≡ Status.Words → AskNothing (words_of words.now) }
    ensures nothing { AskNothing (words_of words.now) → (result ≡ Status.Words)
        ⊎ ((result ≡ Status.Write) ⊎ (result ≡ Status.Memory)) }
    ensures read { result ≡ Status.Read → Rose (F.faults shelf.old) (F.faults shelf.new) }
    ensures write { result ≡ Status.Write → Rose (K.faults sink.old) (K.faults sink.new) }
    ensures memory { result ≡ Status.Memory → (K.written sink.new ≡ K.written sink.old)
        ⊎ Rose (K.wants sink.old) (K.wants sink.new) }
    ensures prefix { (result ≡ Status.Write) ⊎ (result ≡ Status.Memory)
        → (K.written sink.new ≡ K.written sink.old) ⊎ ((status : Status) × (text : List ℕ) × (n : ℕ)
        × IsReply (reading (F.files shelf.old) (F.faults shelf.old) (F.faults shelf.new))
        (words_of words.now) status text
        × (n ≤ length text) × (K.written sink.new ≡ appended (K.written sink.old) (take n text))) }
{
    let Some(reply) = settled(reply_to(rt, alloc, words, shelf, gate)) else {
        return Status::Memory;
    };
    match write_all(sink, reply.text.as_slice()) {
        WriteEnd::Whole => reply.status,
        WriteEnd::Fault => Status::Write,
        WriteEnd::Memory => Status::Memory,
    }
}

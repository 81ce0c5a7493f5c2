// The command `batch`.
ghost use Rattle.std.specs.Prelude.{◌≡◌, ◌≤◌, ◌++◌, ◌∷◌, [], IfOk, IfErr, OnOk};
ghost use Rattle.hoist_cli.specs.Reading.{reading, IsFileRefusal, line_limit};
ghost use Rattle.hoist_cli.specs.Batched.{IsReadAs, AreReadAs, IsListedStop, BatchReply};
ghost use Rattle.hoist_cli.specs.Stops.{Gives, Refuses};

use crate::files::{LINE_LIMIT, broken_at, fetch};
use crate::replies::{Reply, Stop};
use crate::status::Status;
use batch_lines::batch_text;
use file_list::{FileList, ListRead, read_list};
use line_text::{LineRead, read_line};
use outside::{Gate, Shelf};
use std::alloc::{AllocError, Global};
use std::thread::Threads;

/// What the file of this name is as a line file.
fn read_as<F: Shelf>(alloc: Global, name: &str, shelf: &mut F) -> Result<LineRead, Stop>
    ensures read { IfOk result (λ read. IsReadAs (F.files shelf.old) name.now read) }
    ensures refused { IfErr result (Refuses (IsFileRefusal
        (reading (F.files shelf.old) (F.faults shelf.old) (F.faults shelf.new)) name.now line_limit)) }
    ensures same { F.files shelf.new ≡ F.files shelf.old }
    ensures later { F.faults shelf.old ≤ F.faults shelf.new }
{
    let bytes = fetch(alloc, name, LINE_LIMIT, shelf)?;
    match read_line(alloc, bytes.as_slice())? {
        LineRead::Ready(line) => Ok(LineRead::Ready(line)),
        LineRead::Refused(why) => Ok(LineRead::Refused(why)),
    }
}

/// Keeps what a file is behind those before it.
fn keep(reads: &mut Vec<LineRead>, read: LineRead) -> Result<(), AllocError>
    ensures { OnOk result (reads.new.items ≡ reads.old.items ++ read ∷ []) }
{
    reads.push(read)?;
    Ok(())
}

/// What the named files are as line files, in their order.
fn reads_of<F: Shelf>(alloc: Global, names: &FileList, shelf: &mut F) -> Result<Vec<LineRead>, Stop>
    ensures reads { IfOk result (λ reads. AreReadAs (F.files shelf.old) names.now reads.items) }
    ensures refused { IfErr result (Refuses (IsListedStop
        (reading (F.files shelf.old) (F.faults shelf.old) (F.faults shelf.new)) names.now)) }
    ensures later { F.faults shelf.old ≤ F.faults shelf.new }
{
    let names = names.as_slice();
    let mut reads = Vec::with_capacity(alloc, names.len())?;
    for i in 0..names.len() {
        let read = read_as(alloc, names[i].as_str(), shelf)?;
        keep(&mut reads, read)?;
    }
    Ok(reads)
}

/// The reply to a request to solve the lines of the files that a list names.
pub(crate) fn batch_file<R: Threads + Sync, F: Shelf, G: Gate>(
    rt: &R,
    alloc: Global,
    list: &str,
    budget: u32,
    workers: u32,
    shelf: &mut F,
    gate: &G,
) -> Result<Reply, Stop>
    requires budget { budget ≤ 500 }
    requires workers { (1 ≤ workers) × (workers ≤ 64) }
    ensures { Gives (BatchReply (reading (F.files shelf.old) (F.faults shelf.old)
        (F.faults shelf.new)) list.now budget) result }
{
    let bytes = fetch(alloc, list, LINE_LIMIT, shelf)?;
    match read_list(alloc, bytes.as_slice())? {
        ListRead::Broken { offset } => Err(broken_at(alloc, b"list broken at byte ", offset)),
        ListRead::Ready(names) => {
            let reads = reads_of(alloc, &names, shelf)?;
            let text = batch_text(rt, alloc, reads, budget, workers, gate)?;
            Ok(Reply {
                status: Status::Done,
                text,
            })
        }
    }
}

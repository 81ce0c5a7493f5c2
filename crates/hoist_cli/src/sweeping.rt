// The command `sweep`.
ghost use Rattle.std.specs.Prelude.{◌≡◌, ◌≤◌, IfOk};
ghost use Rattle.hoist_cli.specs.Reading.{reading};
ghost use Rattle.hoist_cli.specs.Swept.{IsSweepOf, SweepReply, status_of_swept};
ghost use Rattle.hoist_cli.specs.Stops.{Gives};

use crate::files::line_in;
use crate::replies::{Reply, Stop};
use crate::status::Status;
use degree_sweep::{Swept, sweep, sweep_text};
use hoist_base::Line;
use outside::{Gate, Shelf};
use std::alloc::{AllocError, Global};
use std::thread::Threads;

/// The degrees, the splits of each search and the workers of a sweep.
#[derive(Clone, Copy)]
pub(crate) struct Scope {
    pub(crate) upto: u32,
    pub(crate) budget: u32,
    pub(crate) workers: u32,
}

/// The status of a sweep.
fn status_on(swept: &Swept) -> Status
    ensures { result ≡ status_of_swept swept.now }
{
    if !swept.is_settled() {
        return Status::Unfinished;
    }
    match swept.best {
        Some(_) => Status::Done,
        None => Status::Negative,
    }
}

/// The reply to a valid line.
fn swept<R: Threads + Sync, G: Gate>(
    rt: &R,
    alloc: Global,
    line: &Line,
    scope: Scope,
    gate: &G,
) -> Result<Reply, AllocError>
    requires upto { (1 ≤ scope.upto) × (scope.upto ≤ 4) }
    requires budget { scope.budget ≤ 20000 }
    requires workers { (1 ≤ scope.workers) × (scope.workers ≤ 64) }
    ensures { IfOk result (λ reply. IsSweepOf scope.upto scope.budget line.now reply.status reply.text.items) }
{
    let swept = sweep(
        rt,
        alloc,
        line,
        scope.upto,
        scope.budget,
        scope.workers,
        gate,
    )?;
    let text = sweep_text(alloc, &swept)?;
    Ok(Reply {
        status: status_on(&swept),
        text,
    })
}

/// The reply to a request to solve the line of a file with each degree up to the greatest of the scope.
pub(crate) fn sweep_file<R: Threads + Sync, F: Shelf, G: Gate>(
    rt: &R,
    alloc: Global,
    file: &str,
    scope: Scope,
    shelf: &mut F,
    gate: &G,
) -> Result<Reply, Stop>
    requires upto { (1 ≤ scope.upto) × (scope.upto ≤ 4) }
    requires budget { scope.budget ≤ 20000 }
    requires workers { (1 ≤ scope.workers) × (scope.workers ≤ 64) }
    ensures { Gives (SweepReply (reading (F.files shelf.old) (F.faults shelf.old)
        (F.faults shelf.new)) file.now scope.upto scope.budget) result }
{
    let line = line_in(alloc, file, shelf)?;
    let reply = swept(rt, alloc, &line, scope, gate)?;
    Ok(reply)
}

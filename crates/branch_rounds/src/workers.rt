// Several workers who expand the paths of a round.
ghost use Rattle.std.specs.Prelude.{◌≡◌, ◌≤◌, ◌<◌, ◌^◌, length, All, IfOk, OnOk};
ghost use Rattle.worker_pool.specs.Pool.{AreAnswers as AreAnswersOf};
ghost use Rattle.hoist_base.specs.Valid.{IsLine};
ghost use Rattle.branch_rounds.specs.Kept.{CanExpand, IsShown, IsKept, AreAnswers};

use crate::expanding::Expanding;
use crate::path::Path;
use crate::state::Search;
use claim_board::Board;
use hoist_base::Line;
use longest_path::System;
use node_expand::{Expanded, Expander};
use outside::Gate;
use path_constraints::base_of;
use std::alloc::{AllocError, Global};
use std::marker::Model;
use std::thread::Threads;
use worker_pool::run_in;

/// A third worker and each further one has to have so many paths: a thread costs as much as the expansions of some of
/// them.
const SHARE: usize = 32;

/// 1 to 64 workers of one line, seen as that line. `base` is the line's system before any decision. Where one worker is
/// enough for a round, that is `expander`, and no thread is started. Else each worker has one of the `rooms`, which are
/// made when a round first lacks them, and serve all rounds after it.
#[derive(Drop)]
pub(crate) struct Workers {
    most: u32,
    base: System,
    expander: Expander,
    rooms: Vec<Expander>,
}

impl Model for Workers {
    ghost use Rattle.std.specs.Prelude.{◌≡◌, ◌≤◌, [], All};
    ghost use Rattle.hoist_base.specs.LineData.{LineData};
    ghost use Rattle.path_constraints.specs.Places.{system_below};

    ghost Value = { LineData };

    ghost view = { λ w. w.expander };

    ghost invariant = { λ w. (w.base ≡ system_below w.expander []) × (1 ≤ w.most) × (w.most ≤ 64)
        × All (λ room. room ≡ w.expander) w.rooms.items };
}

// The expansions of some paths, in the order of the paths, by workers at a board of their own, in rooms of the line.
fn expand_at_once<R: Threads + Sync, G: Gate>(
    rt: &R,
    alloc: Global,
    work: &Expanding<'_>,
    paths: &[Path],
    workers: u32,
    rooms: &mut Vec<Expander>,
    gate: &G,
) -> Result<Vec<Expanded>, AllocError>
    requires workers { (1 ≤ workers) × (workers ≤ 64) }
    requires few { length paths.now < 2 ^ 32 }
    requires can { All (λ path. CanExpand work.now.line.now path work.now.cap) paths.now }
    requires rooms { All (λ room. room ≡ work.now.line.now) rooms.old.items }
    ensures answers { IfOk result (λ xs. AreAnswersOf
        (λ path x. IsShown work.now.line.now path work.now.cap x) paths.now xs.items) }
    ensures rooms { All (λ room. room ≡ work.now.line.now) rooms.new.items }
{
    let (board, mut seat) = Board::new(alloc, paths.len() as u32, workers)?;
    let expansions = run_in(
        rt, alloc, &board, &mut seat, work, paths, workers, rooms, gate,
    );
    board.close(seat);
    expansions
}

impl Workers {
    /// So many workers of a line at most.
    pub(crate) fn new(alloc: Global, line: &Line, most: u32) -> Result<Workers, AllocError>
        requires { (1 ≤ most) × (most ≤ 64) }
        ensures { IfOk result (λ workers. workers ≡ line.now) }
    {
        let base = base_of(alloc, line)?;
        let expander = Expander::new(alloc, line, &base)?;
        Ok(Workers {
            most,
            base,
            expander,
            rooms: Vec::new(alloc),
        })
    }

    /// The expansions of the first paths, in the order of the paths, under the cap of this moment. There are no more
    /// workers than paths, and beyond two no more than one for each `SHARE` paths. Each path passes the gate by its
    /// number within the round.
    pub(crate) fn expand_first<R: Threads + Sync, G: Gate>(
        &mut self,
        rt: &R,
        alloc: Global,
        line: &Line,
        search: &Search,
        count: usize,
        gate: &G,
    ) -> Result<Vec<Expanded>, AllocError>
        requires line { self.old ≡ line.now }
        requires kept { IsKept line.now search.now }
        requires count { count ≤ length search.now.frontier }
        requires short { search.now.splits ≤ 20000 }
        ensures same { self.new ≡ self.old }
        ensures count { IfOk result (λ xs. length xs.items ≡ count) }
        ensures answers { IfOk result (λ xs. AreAnswers line.now search.now xs.items) }
        ensures valid { IsLine line.now }
    {
        let enough = count.min((count / SHARE).max(2));
        let workers = (self.most as usize).min(enough) as u32;
        if workers <= 1 {
            return search.expand_in_turn(alloc, line, &mut self.expander, count, gate);
        }
        let cap = search.cap(line);
        let paths = search.first_paths(alloc, count)?;
        let work = Expanding {
            line,
            base: &self.base,
            cap,
        };
        let rooms = &mut self.rooms;
        expand_at_once(rt, alloc, &work, paths.as_slice(), workers, rooms, gate)
    }
}

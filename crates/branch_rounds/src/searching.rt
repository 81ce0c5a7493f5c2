// The search.
ghost use Rattle.std.specs.Prelude.{◌≤◌, IfOk};
ghost use Rattle.branch_rounds.specs.Searched.{IsSearched};

use crate::outcome::Outcome;
use crate::state::Search;
use crate::workers::Workers;
use hoist_base::Line;
use node_expand::Expander;
use outside::{Gate, OpenGate};
use path_constraints::base_of;
use std::alloc::{AllocError, Global};
use std::thread::Threads;

// Rounds until no path is left or the budget is spent.
fn grow<G: Gate>(alloc: Global, line: &Line, budget: u32, gate: &G) -> Result<Outcome, AllocError>
    requires { budget ≤ 20000 }
    ensures { IfOk result (λ o. IsSearched line.now budget o) }
{
    let base = base_of(alloc, line)?;
    let mut expander = Expander::new(alloc, line, &base)?;
    let mut state = Search::new(alloc)?;
    while state.goes_on(budget) {
        state.round(alloc, line, &mut expander, budget, gate)?;
    }
    let bound = state.bound(alloc, line)?;
    let left = state.frontier.len() as u32;
    Ok(Outcome {
        tree: state.tree,
        best: state.best,
        bound,
        splits: state.splits,
        left,
    })
}

// The same by workers.
fn grow_at_once<R: Threads + Sync, G: Gate>(
    rt: &R,
    alloc: Global,
    line: &Line,
    budget: u32,
    most: u32,
    gate: &G,
) -> Result<Outcome, AllocError>
    requires budget { budget ≤ 20000 }
    requires most { (1 ≤ most) × (most ≤ 64) }
    ensures { IfOk result (λ o. IsSearched line.now budget o) }
{
    let mut workers = Workers::new(alloc, line, most)?;
    let mut state = Search::new(alloc)?;
    while state.goes_on(budget) {
        state.round_at_once(rt, alloc, line, &mut workers, budget, gate)?;
    }
    let bound = state.bound(alloc, line)?;
    let left = state.frontier.len() as u32;
    Ok(Outcome {
        tree: state.tree,
        best: state.best,
        bound,
        splits: state.splits,
        left,
    })
}

/// Searches for the least period of a legal timetable, in rounds of at most 64 paths, until no path is left or `budget`
/// questions were asked. The paths of a round are jobs of the workers, under the cap at which the round begins, and
/// pass the gate by their number within the round. Its outcome is that of one worker.
///
/// The tree proves the bound: no legal timetable has a smaller period. The best can be planned. Where nothing is left,
/// the bound is the best's period, or one more than the greatest period where there is no best. A budget that is enough
/// for the line leaves nothing.
pub fn search<R: Threads + Sync, G: Gate>(
    rt: &R,
    alloc: Global,
    line: &Line,
    budget: u32,
    workers: u32,
    gate: &G,
) -> Result<Outcome, AllocError>
    requires budget { budget ≤ 20000 }
    requires workers { (1 ≤ workers) × (workers ≤ 64) }
    ensures { IfOk result (λ o. IsSearched line.now budget o) }
{
    grow_at_once(rt, alloc, line, budget, workers, gate)
}

/// `search` by one worker, without threads and without a gate.
pub fn search_alone(alloc: Global, line: &Line, budget: u32) -> Result<Outcome, AllocError>
    requires { budget ≤ 20000 }
    ensures { IfOk result (λ o. IsSearched line.now budget o) }
{
    grow(alloc, line, budget, &OpenGate)
}

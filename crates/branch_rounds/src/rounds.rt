// One round: the first paths are expanded, and their expansions are taken.
ghost use Rattle.std.specs.Prelude.{◌≡◌, ◌+◌, ◌-◌, ◌*◌, ◌≤◌, ◌<◌, List, length, IfOk, OnOk};
ghost use Rattle.hoist_base.specs.Valid.{IsLine};
ghost use Rattle.longest_path.specs.Bounds.{IsCap};
ghost use Rattle.node_expand.specs.declared.expanded.Expanded.{Expanded as Expansion};
ghost use Rattle.branch_rounds.specs.Grown.{after, cap_of, round_size, IsRound};
ghost use Rattle.branch_rounds.specs.Kept.{IsPlaced, IsKept, IsAnswer, AreAnswers, ArePaths};

use crate::path::Path;
use crate::state::Search;
use crate::workers::Workers;
use hoist_base::Line;
use node_expand::{Expanded, Expander};
use outside::Gate;
use std::alloc::{AllocError, Global};
use std::thread::Threads;

/// The most paths of a round.
const ROUND: usize = 64;

impl Search {
    // How many paths the next round expands.
    fn round_size(&self, budget: u32) -> usize
        requires { self.now.splits ≤ budget }
        ensures { result ≡ round_size budget self.now }
    {
        let splits = (budget - self.splits) as usize;
        ROUND.min(splits.min(self.frontier.len()))
    }

    // The expansion of path k.
    fn expand(
        &self,
        alloc: Global,
        line: &Line,
        expander: &mut Expander,
        k: usize,
        cap: u32,
    ) -> Result<Expanded, AllocError>
        requires expander { expander.old ≡ line.now }
        requires kept { IsKept line.now self.now }
        requires k { k < length self.now.frontier }
        requires short { self.now.splits ≤ 20000 }
        requires cap { cap ≡ cap_of line.now self.now.best }
        requires range { IsCap cap }
        ensures expander { expander.new ≡ expander.old }
        ensures answer { IfOk result (λ x. IsAnswer line.now self.now k x) }
    {
        let path = self.tree.path(alloc, self.frontier.node(k))?;
        expander.expand(alloc, line, path.as_slice(), cap)
    }

    /// The expansions of the first paths, one after another; each passes the gate by its number within the round.
    pub(crate) fn expand_in_turn<G: Gate>(
        &self,
        alloc: Global,
        line: &Line,
        expander: &mut Expander,
        count: usize,
        gate: &G,
    ) -> Result<Vec<Expanded>, AllocError>
        requires expander { expander.old ≡ line.now }
        requires kept { IsKept line.now self.now }
        requires count { count ≤ length self.now.frontier }
        requires short { self.now.splits ≤ 20000 }
        ensures expander { expander.new ≡ expander.old }
        ensures count { IfOk result (λ xs. length xs.items ≡ count) }
        ensures answers { IfOk result (λ xs. AreAnswers line.now self.now xs.items) }
        ensures valid { IsLine line.now }
    {
        let cap = self.cap(line);
        let mut expansions = Vec::with_capacity(alloc, count)?;
        for k in 0..count {
            gate.pass(k as u64);
            let expanded = self.expand(alloc, line, expander, k, cap)?;
            expansions.push(expanded)?;
        }
        Ok(expansions)
    }

    /// The first paths.
    pub(crate) fn first_paths(&self, alloc: Global, count: usize) -> Result<Vec<Path>, AllocError>
        requires placed { IsPlaced self.now }
        requires count { count ≤ length self.now.frontier }
        ensures count { IfOk result (λ paths. length paths.items ≡ count) }
        ensures leads { IfOk result (λ paths. ArePaths self.now paths.items) }
    {
        let mut paths = Vec::with_capacity(alloc, count)?;
        for k in 0..count {
            let node = self.frontier.node(k);
            let path = self.tree.path(alloc, node)?;
            paths.push(Path::from_vec(path))?;
        }
        Ok(paths)
    }

    /// Expands the first paths under the cap of this moment, and puts what their expansions leave in their place.
    pub(crate) fn round<G: Gate>(
        &mut self,
        alloc: Global,
        line: &Line,
        expander: &mut Expander,
        budget: u32,
        gate: &G,
    ) -> Result<(), AllocError>
        requires expander { expander.old ≡ line.now }
        requires kept { IsKept line.now self.old }
        requires budget { budget ≤ 20000 }
        requires some { 0 < length self.old.frontier }
        requires unspent { self.old.splits < budget }
        ensures expander { expander.new ≡ expander.old }
        ensures round { OnOk result ((xs : List Expansion) × IsRound line.now budget self.old xs
            × (self.new ≡ after self.old xs)) }
        ensures kept { OnOk result (IsKept line.now self.new) }
        ensures splits { OnOk result (self.new.splits ≤ budget) }
        ensures less { OnOk result (length self.new.frontier + 6 *
            (budget - self.new.splits) < length self.old.frontier + 6 * (budget - self.old.splits)) }
    {
        let count = self.round_size(budget);
        let expansions = self.expand_in_turn(alloc, line, expander, count, gate)?;
        self.take_all(alloc, expansions)?;
        Ok(())
    }

    /// The same round by workers.
    pub(crate) fn round_at_once<R: Threads + Sync, G: Gate>(
        &mut self,
        rt: &R,
        alloc: Global,
        line: &Line,
        workers: &mut Workers,
        budget: u32,
        gate: &G,
    ) -> Result<(), AllocError>
        requires workers { workers.old ≡ line.now }
        requires kept { IsKept line.now self.old }
        requires budget { budget ≤ 20000 }
        requires some { 0 < length self.old.frontier }
        requires unspent { self.old.splits < budget }
        ensures workers { workers.new ≡ workers.old }
        ensures round { OnOk result ((xs : List Expansion) × IsRound line.now budget self.old xs
            × (self.new ≡ after self.old xs)) }
        ensures kept { OnOk result (IsKept line.now self.new) }
        ensures splits { OnOk result (self.new.splits ≤ budget) }
        ensures less { OnOk result (length self.new.frontier + 6 *
            (budget - self.new.splits) < length self.old.frontier + 6 * (budget - self.old.splits)) }
    {
        let count = self.round_size(budget);
        let expansions = workers.expand_first(rt, alloc, line, self, count, gate)?;
        self.take_all(alloc, expansions)?;
        Ok(())
    }
}

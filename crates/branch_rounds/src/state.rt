// A search between two rounds.
ghost use Rattle.std.specs.Prelude.{◌≡◌, ◌≤◌, ◌<◌, ◌↔◌, length, IsTrue, IfOk};
ghost use Rattle.hoist_base.specs.Valid.{IsLine};
ghost use Rattle.branch_rounds.specs.Grown.{start, cap_of};

use crate::frontier::Frontier;
use choice_tree::Tree;
use hoist_base::Line;
use node_expand::Solved;
use std::alloc::{AllocError, Global};

/// A search between two rounds: the tree, the paths that are left, the solved path of the least period, and how many
/// splits were made.
#[derive(Debug, Drop)]
pub(crate) struct Search {
    pub(crate) tree: Tree,
    pub(crate) frontier: Frontier,
    pub(crate) best: Option<Solved>,
    pub(crate) splits: u32,
}

impl Search {
    /// The root alone is left.
    pub(crate) fn new(alloc: Global) -> Result<Search, AllocError>
        ensures { IfOk result (λ state. state ≡ start) }
    {
        let tree = Tree::new(alloc)?;
        let frontier = Frontier::of_root(alloc)?;
        Ok(Search {
            tree,
            frontier,
            best: None,
            splits: 0,
        })
    }

    /// The period of the best, or one more than the greatest period where there is none.
    pub(crate) fn cap(&self, line: &Line) -> u32
        ensures value { result ≡ cap_of line.now self.now.best }
        ensures valid { IsLine line.now }
    {
        let none = line.max_period() + 1;
        match &self.best {
            Some(best) => best.period,
            None => none,
        }
    }

    /// Whether paths and splits are left.
    pub(crate) fn goes_on(&self, budget: u32) -> bool
        ensures { IsTrue result ↔ ((0 < length self.now.frontier) × (self.now.splits < budget)) }
    {
        self.frontier.len() > 0 && self.splits < budget
    }
}

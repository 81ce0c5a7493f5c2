// A round's expansions are taken into the state.
ghost use Rattle.std.specs.Prelude.{◌≡◌, ◌+◌, ◌^◌, ◌≤◌, ◌<◌, ◌++◌, length, Some, OnOk};
ghost use Rattle.choice_tree.specs.Nodes.{node_at, IsLeft, numbers_from, split_at};
ghost use Rattle.branch_rounds.specs.Grown.{result_at, child_count, split_count, less, better, after};
ghost use Rattle.branch_rounds.specs.Kept.{IsPlaced, AreNarrow};

use crate::state::Search;
use choice_tree::{Node, Proof, Question};
use node_expand::{Expanded, Solved};
use std::alloc::{AllocError, Global};

impl Search {
    // The node becomes a split. Its children are left with the low, and put behind the others.
    fn split(
        &mut self,
        node: u32,
        question: Question,
        children: u32,
        low: &Proof,
        paths: &mut Vec<u32>,
    ) -> Result<(), AllocError>
        requires there { node < length self.old.tree }
        requires left { IsLeft (node_at self.old.tree node) }
        requires few { children ≤ 6 }
        requires room { length self.old.tree + 6 < 2 ^ 32 }
        requires splits { self.old.splits < 20000 }
        ensures tree { OnOk result (self.new.tree ≡ split_at self.old.tree node question children low.now) }
        ensures paths { OnOk result (paths.new.items
            ≡ paths.old.items ++ numbers_from (length self.old.tree) children) }
        ensures best { self.new.best ≡ self.old.best }
        ensures splits { OnOk result (self.new.splits ≡ self.old.splits + 1) }
        ensures frontier { self.new.frontier ≡ self.old.frontier }
    {
        let first = self.tree.len();
        self.tree.split(node, question, children, low)?;
        for child in 0..children {
            paths.push(first + child)?;
        }
        self.splits += 1;
        Ok(())
    }

    // Keeps the solved path where it is the first, or has a smaller period.
    fn keep_better(&mut self, solved: Solved)
        ensures best { self.new.best ≡ Some (less self.old.best solved) }
        ensures tree { self.new.tree ≡ self.old.tree }
        ensures splits { self.new.splits ≡ self.old.splits }
        ensures frontier { self.new.frontier ≡ self.old.frontier }
    {
        let is_better = match &self.best {
            Some(best) => solved.period < best.period,
            None => true,
        };
        if is_better {
            self.best = Some(solved);
        }
    }

    // The tree takes the expansion of the path to a node; the paths in its place are put behind the others.
    fn take(
        &mut self,
        node: u32,
        expanded: Expanded,
        paths: &mut Vec<u32>,
    ) -> Result<(), AllocError>
        requires there { node < length self.old.tree }
        requires left { IsLeft (node_at self.old.tree node) }
        requires few { child_count expanded ≤ 6 }
        requires room { length self.old.tree + 6 < 2 ^ 32 }
        requires splits { self.old.splits < 20000 }
        ensures tree { OnOk result (self.new.tree ≡ result_at self.old.tree node expanded) }
        ensures paths { OnOk result (paths.new.items
            ≡ paths.old.items ++ numbers_from (length self.old.tree) (child_count expanded)) }
        ensures best { OnOk result (self.new.best ≡ better self.old.best expanded) }
        ensures splits { OnOk result (self.new.splits ≡ self.old.splits + split_count expanded) }
        ensures frontier { self.new.frontier ≡ self.old.frontier }
    {
        match expanded {
            Expanded::Stuck { m } => {
                self.tree.end(node, Node::Stuck { m });
                Ok(())
            }
            Expanded::Closed { low, high } => {
                self.tree.end(node, Node::Closed { low, high });
                Ok(())
            }
            Expanded::Solved { solved, low } => {
                self.tree.end(node, Node::Solved { low });
                self.keep_better(solved);
                Ok(())
            }
            Expanded::Split {
                question,
                children,
                low,
                ..
            } => self.split(node, question, children, &low, paths),
        }
    }

    /// Takes the expansions of the first paths, in the order of the paths, and puts what they leave in their place.
    pub(crate) fn take_all(
        &mut self,
        alloc: Global,
        expansions: Vec<Expanded>,
    ) -> Result<(), AllocError>
        requires placed { IsPlaced self.old }
        requires narrow { AreNarrow expansions.items }
        requires few { length expansions.items ≤ length self.old.frontier }
        requires room { self.old.splits + length expansions.items ≤ 20000 }
        ensures { OnOk result (self.new ≡ after self.old expansions.items) }
    {
        let count = expansions.len();
        let mut paths = Vec::new(alloc);
        let mut k = 0;
        for expanded in expansions {
            let node = self.frontier.node(k);
            self.take(node, expanded, &mut paths)?;
            k += 1;
        }
        self.frontier.replace_first(count, paths.as_slice())?;
        Ok(())
    }
}

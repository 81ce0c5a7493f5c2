// The leaves that were passed on the way through a tree, and the threads that try them.
ghost use Rattle.std.specs.Prelude.{◌≡◌, ℕ, ◌<◌, ◌≤◌, ◌++◌, [], length, All, Bool, IsTrue, MatchOption, OnOk};
ghost use Rattle.std.specs.Option.{is_some};
ghost use Rattle.hoist_base.specs.LineData.{is_single};
ghost use Rattle.hoist_base.specs.Valid.{IsLine};
ghost use Rattle.longest_path.specs.Bounds.{IsPeriod};
ghost use Rattle.choice_tree.specs.Nodes.{node_at};
ghost use Rattle.answer_text.specs.Nodes.{IsNodeText};
ghost use Rattle.cert_checker.specs.Passed.{leaf_of};
ghost use Rattle.cert_checker.specs.Trying.{IsPassed, CanBeTried, passed_at, IsLeafAnswer, IsFirstAmong};
ghost use Rattle.cert_checker.specs.Trying.{IsAnswerOf, AreTried};

use crate::nodes::{is_split, node_reason};
use crate::reason::Reason;
use choice_tree::{Decision, Node, Tree};
use hoist_base::Line;
use rayon::prelude::*;
use std::alloc::{AllocError, Global};
use std::marker::Model;
use std::thread::Threads;

/// So many decisions on the paths of leaves are kept before the leaves are tried.
const MANY_DECISIONS: usize = 1 << 18;

/// The least number of leaves that are worth a thread of their own.
const WORTH_A_THREAD: usize = 256;

/// A leaf, and where its path stands among the decisions that are kept.
#[derive(Clone, Copy)]
struct Leaf {
    number: u32,
    node: u32,
    begin: usize,
    end: usize,
}

/// Leaves that were passed and are still to be tried, in their order, each with its path.
#[derive(Drop)]
pub(crate) struct Leaves {
    leaves: Vec<Leaf>,
    decisions: Vec<Decision>,
}

impl Model for Leaves {
    ghost use Rattle.std.specs.Prelude.{List, map, All};
    ghost use Rattle.cert_checker.specs.Passed.{PassedLeaf, leaf_of, IsWithin};

    ghost Value = { List PassedLeaf };

    ghost view = { λ s. map (leaf_of s.decisions.items) s.leaves.items };

    ghost invariant = { λ s. All (IsWithin s.decisions.items) s.leaves.items };
}

// What is wrong with a leaf.
fn leaf_reason(
    line: &Line,
    tree: &Tree,
    decisions: &[Decision],
    bound: u32,
    leaf: Leaf,
) -> Option<Reason>
    requires { CanBeTried line.now tree.now bound decisions.now leaf }
    ensures { IsLeafAnswer line.now tree.now bound (leaf_of decisions.now leaf) result }
{
    let path = &decisions[leaf.begin..leaf.end];
    node_reason(line, path, tree.node(leaf.node), bound, leaf.number)
}

impl Leaves {
    /// No leaf.
    pub(crate) fn new(alloc: Global) -> Leaves
        ensures { result ≡ [] }
    {
        Leaves {
            leaves: Vec::new(alloc),
            decisions: Vec::new(alloc),
        }
    }

    /// Passes a node of the path, which is kept where it is a leaf.
    pub(crate) fn pass(
        &mut self,
        number: u32,
        at: u32,
        node: &Node,
        path: &[Decision],
    ) -> Result<(), AllocError>
        ensures { OnOk result (self.new ≡ self.old ++ passed_at number at node.now path.now) }
    {
        if is_split(node) {
            return Ok(());
        }
        let begin = self.decisions.len();
        self.decisions.extend_from_slice(path)?;
        let end = self.decisions.len();
        self.leaves.push(Leaf {
            number,
            node: at,
            begin,
            end,
        })?;
        Ok(())
    }

    /// The first flaw of the first leaf that has one. The leaves are shared out among threads, where they are many.
    pub(crate) fn first_flaw<R: Threads + Sync>(
        &self,
        rt: &R,
        line: &Line,
        tree: &Tree,
        bound: u32,
    ) -> Option<Reason>
        requires valid { IsLine line.now }
        requires nodes { (i : ℕ) → i < length tree.now → IsNodeText (is_single line.now) (node_at tree.now i) }
        requires bound { IsPeriod bound }
        requires passed { All (IsPassed line.now tree.now) self.now }
        ensures { IsAnswerOf line.now tree.now bound self.now result }
    {
        let decisions = self.decisions.as_slice();
        self.leaves
            .as_slice()
            .par_iter()
            .with_min_len(WORTH_A_THREAD)
            .map(
                |leaf: &Leaf| -> Option<Reason>
                    requires { CanBeTried line.now tree.now bound decisions.now leaf.now }
                    ensures { IsLeafAnswer line.entry.now tree.entry.now bound
                        (leaf_of decisions.entry.now leaf.now) result }
                { leaf_reason(line, tree, decisions, bound, *leaf) },
            )
            .find_first(
                rt,
                |reason: &Option<Reason>| -> bool
                    ensures { result ≡ is_some reason.now }
                { reason.is_some() },
            )?
    }

    /// Where many decisions are kept, tries the leaves: the first flaw of the first leaf that has one, or None, and
    /// then none is left to be tried.
    pub(crate) fn try_many<R: Threads + Sync>(
        &mut self,
        rt: &R,
        line: &Line,
        tree: &Tree,
        bound: u32,
    ) -> Option<Reason>
        requires valid { IsLine line.now }
        requires nodes { (i : ℕ) → i < length tree.now → IsNodeText (is_single line.now) (node_at tree.now i) }
        requires bound { IsPeriod bound }
        requires passed { All (IsPassed line.now tree.now) self.old }
        ensures { MatchOption result (AreTried line.now tree.now bound self.old self.new)
            (λ r. IsFirstAmong line.now tree.now bound self.old r) }
    {
        if self.decisions.len() < MANY_DECISIONS {
            return None;
        }
        if let Some(reason) = self.first_flaw(rt, line, tree, bound) {
            return Some(reason);
        }
        self.leaves.clear();
        self.decisions.clear();
        None
    }
}

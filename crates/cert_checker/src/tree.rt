// The nodes of a tree, one after another.
ghost use Rattle.std.specs.Prelude.{
  ◌≡◌,
  ◌≢◌,
  ℕ,
  ◌+◌,
  ◌≤◌,
  ◌<◌,
  ◌↔◌,
  ◌++◌,
  List,
  length,
  reverse,
  IsTrue,
  IfOk,
  OnOk,
  Some,
  None,
  MatchOption,
};
ghost use Rattle.hoist_base.specs.Valid.{IsLine};
ghost use Rattle.longest_path.specs.Bounds.{IsPeriod};
ghost use Rattle.choice_tree.specs.Nodes.{node_at, children_of, IsLeft, NoneLeft, SomeLeft};
ghost use Rattle.choice_tree.specs.Trees.{IsTree, preorder};
ghost use Rattle.hoist_base.specs.LineData.{is_single};
ghost use Rattle.answer_text.specs.Nodes.{IsNodeText};
ghost use Rattle.cert_checker.specs.Reasons.{split_count, IsLeftNode, number_at};
ghost use Rattle.cert_checker.specs.Waiting.{waits_of, waits_below, IsTreeAnswer};

use crate::nodes::{is_split, split_flaw};
use crate::passed::Leaves;
use crate::reason::Reason;
use choice_tree::{Decision, Node, Question, Tree};
use hoist_base::Line;
use std::alloc::{AllocError, Global};
use std::thread::Threads;

/// A node that waits to be tried: so many decisions of the path above it stay, and then this one leads to it.
#[derive(Clone, Copy)]
struct Waiting {
    node: u32,
    above: usize,
    decision: Decision,
}

// Puts the children of a question on a stack, so that the first is taken first.
fn push_children(
    waiting: &mut Vec<Waiting>,
    question: Question,
    children: &[u32],
    above: usize,
) -> Result<(), AllocError>
    requires { length children.now ≤ 6 }
    ensures { OnOk result (waiting.new.items ≡ waiting.old.items ++ reverse (waits_of above question 0 children.now)) }
{
    let count = children.len();
    for k in 0..count {
        let child = count - 1 - k;
        let decision = Decision {
            question,
            child: child as u32,
        };
        waiting.push(Waiting {
            node: children[child],
            above,
            decision,
        })?;
    }
    Ok(())
}

// Puts the children of a node on a stack, so that the first is taken first; a leaf has none.
fn push_below(waiting: &mut Vec<Waiting>, node: &Node, above: usize) -> Result<(), AllocError>
    requires { length (children_of node.now) ≤ 6 }
    ensures { OnOk result (waiting.new.items ≡ waiting.old.items ++ reverse (waits_below above node.now)) }
{
    if let Node::Split { question, children } = node {
        push_children(waiting, *question, children.as_slice(), above)?;
    }
    Ok(())
}

/// The first flaw of the first node in preorder that has one; None where the tree proves the bound.
///
/// The splits are tried on the way through the tree, since the paths below them have to fit. The leaves are kept with
/// their paths, and tried by many threads.
pub(crate) fn first_flawed<R: Threads + Sync>(
    rt: &R,
    alloc: Global,
    line: &Line,
    tree: &Tree,
    bound: u32,
) -> Result<Option<Reason>, AllocError>
    requires valid { IsLine line.now }
    requires nodes { (i : ℕ) → i < length tree.now → IsNodeText (is_single line.now) (node_at tree.now i) }
    requires bound { IsPeriod bound }
    ensures { IfOk result (λ answer. IsTreeAnswer line.now tree.now bound answer) }
{
    let mut path: Vec<Decision> = Vec::new(alloc);
    let mut waiting: Vec<Waiting> = Vec::new(alloc);
    let mut leaves = Leaves::new(alloc);
    let mut at = 0;
    for number in 0..tree.len() {
        let node = tree.node(at);
        if let Some(reason) = split_flaw(line, path.as_slice(), node, bound, number) {
            let earlier = leaves.first_flaw(rt, line, tree, bound);
            return Ok(earlier.or(Some(reason)));
        }
        leaves.pass(number, at, node, path.as_slice())?;
        push_below(&mut waiting, node, path.len())?;
        let Some(next) = waiting.pop() else {
            return Ok(leaves.first_flaw(rt, line, tree, bound));
        };
        if let Some(reason) = leaves.try_many(rt, line, tree, bound) {
            return Ok(Some(reason));
        }
        path.truncate(next.above);
        path.push(next.decision)?;
        at = next.node;
    }
    Ok(None)
}

pub(crate) fn is_left(node: &Node) -> bool
    ensures { IsTrue result ↔ IsLeft node.now }
{
    matches!(node, Node::Left { .. })
}

/// The number of splits of a tree.
pub(crate) fn count_splits(tree: &Tree) -> u32
    ensures value { result ≡ split_count tree.now }
    ensures valid { IsTree tree.now }
{
    let mut count = 0;
    for i in 0..tree.len() {
        if is_split(tree.node(i)) {
            count += 1;
        }
    }
    count
}

/// Whether a node of the tree is left.
pub(crate) fn has_left(tree: &Tree) -> bool
    ensures is_there { IsTrue result → SomeLeft tree.now }
    ensures none { (IsTrue result → ⊥) → NoneLeft tree.now }
    ensures valid { IsTree tree.now }
{
    for i in 0..tree.len() {
        if is_left(tree.node(i)) {
            return true;
        }
    }
    false
}

/// The number in preorder of the first node that is left, or None where none is.
pub(crate) fn first_left(alloc: Global, tree: &Tree) -> Result<Option<u32>, AllocError>
    ensures { IfOk result (λ answer. MatchOption answer (NoneLeft tree.now)
        (λ n. IsLeftNode tree.now n × ((m : ℕ) → m < n → IsLeftNode tree.now m → ⊥))) }
{
    if !has_left(tree) {
        return Ok(None);
    }
    let order = tree.order(alloc)?;
    for number in 0..order.len() {
        if is_left(tree.node(order[number])) {
            return Ok(Some(number as u32));
        }
    }
    Ok(None)
}

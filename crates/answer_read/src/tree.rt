// The tree, read line by line.
ghost use Rattle.std.specs.Prelude.{◌≡◌, ◌<◌, ◌≤◌, ◌+◌, ◌^◌, ◌++◌, [], length, reverse, OnOk, slice_set};
ghost use Rattle.choice_tree.specs.Nodes.{node_at, IsLeft, IsLeaf, numbers_from, split_at};
ghost use Rattle.answer_text.specs.Limits.{most_children};
ghost use Rattle.field_reading.specs.Gives.{Gives};
ghost use Rattle.answer_read.specs.Trees.{arity, placed, tree_at};

use crate::lines::row;
use crate::row::Row;
use choice_tree::{Node, Proof, Question, Tree};
use field_reading::Stop;
use std::alloc::{AllocError, Global};

/// The nodes `first`, `first + 1` and so on wait, the first of them on top.
fn wait_for(waiting: &mut Vec<u32>, first: u32, count: u32) -> Result<(), AllocError>
    requires { first + count < 2 ^ 32 }
    ensures { OnOk result (reverse waiting.new.items ≡ numbers_from first count ++ reverse waiting.old.items) }
{
    let mut left = count;
    while left > 0 {
        left -= 1;
        waiting.push(first + left)?;
    }
    Ok(())
}

/// Node `i` becomes a split; its children wait.
fn split(
    tree: &mut Tree,
    waiting: &mut Vec<u32>,
    i: u32,
    question: Question,
    children: u32,
    none: &Proof,
) -> Result<(), AllocError>
    requires there { i < length tree.old }
    requires left { IsLeft (node_at tree.old i) }
    requires few { children ≤ most_children }
    requires room { length tree.old + children < 2 ^ 32 }
    ensures tree { OnOk result (tree.new ≡ split_at tree.old i question children none.now) }
    ensures waiting { OnOk result (reverse waiting.new.items ≡ numbers_from (length tree.old) children
        ++ reverse waiting.old.items) }
{
    let first = tree.len();
    tree.split(i, question, children, none)?;
    wait_for(waiting, first, children)?;
    Ok(())
}

/// The line is that of node `i`; the node's children wait.
fn place(
    tree: &mut Tree,
    waiting: &mut Vec<u32>,
    i: u32,
    row: Row,
    none: &Proof,
) -> Result<(), AllocError>
    requires there { i < length tree.old }
    requires left { IsLeft (node_at tree.old i) }
    requires few { arity row ≤ most_children }
    requires room { length tree.old + arity row < 2 ^ 32 }
    requires none { none.now ≡ [] }
    ensures tree { OnOk result (tree.new ≡ placed tree.old i row) }
    ensures waiting { OnOk result (reverse waiting.new.items ≡ numbers_from (length tree.old) (arity row)
        ++ reverse waiting.old.items) }
{
    match row {
        Row::Choose { v, children } => {
            split(tree, waiting, i, Question::Choose { v }, children, none)
        }
        Row::TankOrder { a, b, q } => {
            split(tree, waiting, i, Question::TankOrder { a, b, q }, 2, none)
        }
        Row::HoistOrder { a, b, q } => {
            split(tree, waiting, i, Question::HoistOrder { a, b, q }, 2, none)
        }
        Row::Assign { m, children } => {
            split(tree, waiting, i, Question::Assign { m }, children, none)
        }
        Row::ClosedLow { low, high } => {
            let low = Some(low);
            end(tree, i, Node::Closed { low, high });
            Ok(())
        }
        Row::ClosedHigh { high } => {
            let (low, high) = (None, Some(high));
            end(tree, i, Node::Closed { low, high });
            Ok(())
        }
        Row::Stuck { m } => {
            end(tree, i, Node::Stuck { m });
            Ok(())
        }
        Row::Solved { low } => {
            end(tree, i, Node::Solved { low });
            Ok(())
        }
        Row::Left { low } => {
            end(tree, i, Node::Left { low });
            Ok(())
        }
    }
}

/// Node `i` becomes a leaf, which has no children.
#[tactic(auto, using(crate::proofs::Growing::nothing_behind))]
fn end(tree: &mut Tree, i: u32, leaf: Node)
    requires there { i < length tree.old }
    requires left { IsLeft (node_at tree.old i) }
    requires leaf { IsLeaf leaf }
    ensures { tree.new ≡ slice_set tree.old i leaf ++ [] }
{
    tree.end(i, leaf);
}

/// The tree of the lines in front: each line is that of the node that waits on top.
pub(crate) fn tree(alloc: Global, single: bool, bytes: &[u8]) -> Result<(Tree, &[u8]), Stop>
    requires { length bytes.now ≤ 2 ^ 30 }
    ensures { Gives (λ x. (x.0, x.1.now)) result (tree_at single bytes.now) }
{
    let none = Proof::from_vec(Vec::new(alloc));
    let mut tree = Tree::new(alloc)?;
    let mut waiting = Vec::new(alloc);
    waiting.push(0)?;
    let mut rest = bytes;
    while let Some(i) = waiting.pop() {
        let (row, after) = row(alloc, single, rest)?;
        place(&mut tree, &mut waiting, i, row, &none)?;
        rest = after;
    }
    Ok((tree, rest))
}

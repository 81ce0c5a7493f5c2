// Trees.
ghost use Rattle.std.specs.Prelude.{
  ◌≡◌,
  ◌+◌,
  ◌^◌,
  ◌<◌,
  ◌≤◌,
  length,
  [],
  ◌∷◌,
  ◌++◌,
  reverse,
  replicate,
  slice_set,
  Some,
  None,
  IsTrue,
  IfOk,
  OnOk,
  OnErr,
};
ghost use Rattle.choice_tree.specs.declared.node.Node.{Node};
ghost use Rattle.choice_tree.specs.Nodes.{node_at, IsLeft, IsLeaf, IsPathTo, numbers_from, split_at};
ghost use Rattle.choice_tree.specs.Trees.{IsTree, preorder};
ghost use Rattle.choice_tree.specs.Origins.{AreOriginsOf};

use crate::constraint::Proof;
use crate::node::{Children, Node};
use crate::question::{Decision, Question};
use std::alloc::{AllocError, Global};
use std::marker::Model;

/// Where a node hangs: the split above it, and the decision there that leads to it.
#[derive(Clone, Copy, Debug)]
struct Origin {
    parent: u32,
    decision: Decision,
}

/// A tree of questions, seen as the list of its nodes; node 0 is the root.
///
/// The origin of node i stands at i - 1 of `origins`, so that a path is found without a look at other nodes.
#[derive(Debug, Drop)]
pub struct Tree {
    nodes: Vec<Node>,
    origins: Vec<Origin>,
}

impl Model for Tree {
    ghost use Rattle.std.specs.Prelude.{List};
    ghost use Rattle.choice_tree.specs.declared.node.Node.{Node};

    ghost Value = { List Node };

    ghost use Rattle.choice_tree.specs.Trees.{IsTree};
    ghost use Rattle.choice_tree.specs.Origins.{HasOrigins};

    ghost view = { λ tree. tree.nodes.items };

    ghost invariant = { λ tree. IsTree tree.nodes.items × HasOrigins tree.nodes.items tree.origins.items };
}

impl Tree {
    /// One node, that is left and has no walk.
    pub fn new(alloc: Global) -> Result<Tree, AllocError>
        ensures { IfOk result (λ tree. tree ≡ Node.Left None ∷ []) }
    {
        let mut nodes = Vec::new(alloc);
        nodes.push(Node::Left { low: None })?;
        let origins = Vec::new(alloc);
        Ok(Tree { nodes, origins })
    }

    /// The number of nodes.
    pub fn len(&self) -> u32
        ensures value { result ≡ length self.now }
        ensures valid { IsTree self.now }
    {
        self.nodes.len() as u32
    }

    /// The node with this number.
    pub fn node(&self, i: u32) -> &Node
        requires { i < length self.now }
        ensures value { result.now ≡ node_at self.now i }
        ensures valid { IsTree self.now }
    {
        &self.nodes[i as usize]
    }

    /// Puts a leaf in the place of a node that is left. It answers true.
    pub fn end(&mut self, node: u32, leaf: Node) -> bool
        requires there { node < length self.old }
        requires left { IsLeft (node_at self.old node) }
        requires leaf { IsLeaf leaf }
        ensures answer { IsTrue result }
        ensures after { self.new ≡ slice_set self.old node leaf }
        ensures valid { IsTree self.new }
    {
        self.nodes[node as usize] = leaf;
        true
    }

    /// Makes a node that is left a split. Its children are left with a copy of `low`, and are numbered in order from
    /// the old `len` on. It answers true. All memory is taken before a node changes: without it the tree stays as it
    /// was.
    pub fn split(
        &mut self,
        node: u32,
        question: Question,
        children: u32,
        low: &Proof,
    ) -> Result<bool, AllocError>
        requires there { node < length self.old }
        requires left { IsLeft (node_at self.old node) }
        requires few { children ≤ 6 }
        requires room { length self.old + children < 2 ^ 32 }
        ensures answer { IfOk result (λ done. IsTrue done) }
        ensures ok { OnOk result (self.new ≡ split_at self.old node question children low.now) }
        ensures err { OnErr result (self.new ≡ self.old) }
        ensures valid { IsTree self.new }
    {
        let alloc = *self.nodes.allocator();
        let numbers = numbers(alloc, self.nodes.len() as u32, children)?;
        let mut lefts = left_nodes(alloc, children, low)?;
        let mut origins = origins_of(alloc, node, question, children)?;
        self.nodes.reserve(children as usize)?;
        self.origins.reserve(children as usize)?;
        self.nodes[node as usize] = Node::Split {
            question,
            children: Children::from_vec(numbers),
        };
        self.nodes.append(&mut lefts)?;
        self.origins.append(&mut origins)?;
        Ok(true)
    }

    /// The decisions from the root to a node, the root's own first.
    pub fn path(&self, alloc: Global, i: u32) -> Result<Vec<Decision>, AllocError>
        requires { i < length self.now }
        ensures path { IfOk result (λ path. IsPathTo self.now i path.items) }
        ensures valid { IsTree self.now }
    {
        let mut path = Vec::new(alloc);
        let mut at = i;
        while at > 0 {
            let origin = self.origins[at as usize - 1];
            path.push(origin.decision)?;
            at = origin.parent;
        }
        path.reverse();
        Ok(path)
    }

    /// The numbers of all nodes in preorder: a node, then all that is below its first child, and so on.
    pub fn order(&self, alloc: Global) -> Result<Vec<u32>, AllocError>
        ensures order { IfOk result (λ order. order.items ≡ preorder self.now) }
        ensures valid { IsTree self.now }
    {
        let mut order = Vec::with_capacity(alloc, self.nodes.len())?;
        let mut waiting = Vec::new(alloc);
        waiting.push(0)?;
        while let Some(i) = waiting.pop() {
            order.push(i)?;
            push_reversed(&mut waiting, self.nodes[i as usize].children())?;
        }
        Ok(order)
    }
}

/// Puts numbers on a stack, so that the first is taken first.
fn push_reversed(stack: &mut Vec<u32>, numbers: &[u32]) -> Result<(), AllocError>
    ensures { OnOk result (stack.new.items ≡ stack.old.items ++ reverse numbers.now) }
{
    let count = numbers.len();
    for k in 0..count {
        stack.push(numbers[count - 1 - k])?;
    }
    Ok(())
}

/// `count` numbers in a row.
#[tactic(auto, using(crate::proofs::NodeLemmas::numbers_from_more))]
fn numbers(alloc: Global, first: u32, count: u32) -> Result<Vec<u32>, AllocError>
    requires { first + count < 2 ^ 32 }
    ensures { IfOk result (λ numbers. numbers.items ≡ numbers_from first count) }
{
    let mut numbers = Vec::with_capacity(alloc, count as usize)?;
    for i in 0..count {
        numbers.push(first + i)?;
    }
    Ok(numbers)
}

/// Nodes that are left with copies of a walk.
fn left_nodes(alloc: Global, count: u32, low: &Proof) -> Result<Vec<Node>, AllocError>
    ensures { IfOk result (λ nodes. nodes.items ≡ replicate count (Node.Left (Some low.now))) }
{
    let mut nodes = Vec::with_capacity(alloc, count as usize)?;
    for _i in 0..count {
        let low = Some(low.copied(alloc)?);
        nodes.push(Node::Left { low })?;
    }
    Ok(nodes)
}

/// The origins of a split's children.
fn origins_of(
    alloc: Global,
    parent: u32,
    question: Question,
    count: u32,
) -> Result<Vec<Origin>, AllocError>
    ensures { IfOk result (λ origins. AreOriginsOf origins.items parent question count) }
{
    let mut origins = Vec::with_capacity(alloc, count as usize)?;
    for child in 0..count {
        let decision = Decision { question, child };
        origins.push(Origin { parent, decision })?;
    }
    Ok(origins)
}

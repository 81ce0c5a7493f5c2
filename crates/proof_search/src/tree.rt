// Trees of questions.

use std::alloc::{AllocError, Global};
use walk_tables::{Link, Walks, at, small};

/// A part of a list: from `first` on, `count` items.
#[derive(Clone, Copy)]
pub(crate) struct Part {
    pub(crate) first: u32,
    pub(crate) count: u32,
}

/// A child of a split: the decision that leads there, and its node.
#[derive(Clone, Copy)]
pub(crate) struct Branch {
    pub(crate) literal: u32,
    pub(crate) node: u32,
}

/// A node. The walk `low` of a leaf alone refutes all periods below `reach`.
#[derive(Clone, Copy)]
pub(crate) enum Node {
    Split {
        branches: Part,
    },
    Leaf {
        low: Part,
        high: Part,
        solved: bool,
        reach: i64,
    },
    Stuck {
        m: u32,
    },
}

/// Nodes by number, the branches of splits and the words of walks. A word names a constraint that always holds by its
/// number, and one of a decision by the decision's number behind these.
#[derive(Drop)]
pub(crate) struct Tree {
    nodes: Vec<Node>,
    sizes: Vec<u64>,
    branches: Vec<Branch>,
    words: Vec<u32>,
}

impl Tree {
    pub(crate) fn new(alloc: Global) -> Tree {
        Tree {
            nodes: Vec::new(alloc),
            sizes: Vec::new(alloc),
            branches: Vec::new(alloc),
            words: Vec::new(alloc),
        }
    }

    pub(crate) fn clear(&mut self) {
        self.nodes.clear();
        self.sizes.clear();
        self.branches.clear();
        self.words.clear();
    }

    /// A node by its number.
    pub(crate) fn node(&self, number: u32) -> Node {
        at(&self.nodes, number as usize, Node::Stuck { m: 0 })
    }

    /// How many splits a node's tree has.
    #[inline]
    pub(crate) fn size(&self, number: u32) -> u64 {
        at(&self.sizes, number as usize, 0)
    }

    /// A child of a split.
    pub(crate) fn branch(&self, branches: Part, number: u32) -> Branch {
        let place = (branches.first as usize).wrapping_add(number as usize);
        at(
            &self.branches,
            place,
            Branch {
                literal: 0,
                node: 0,
            },
        )
    }

    /// A word of a walk.
    pub(crate) fn word(&self, walk: Part, number: u32) -> u32 {
        at(
            &self.words,
            (walk.first as usize).wrapping_add(number as usize),
            0,
        )
    }

    fn push(&mut self, node: Node, size: u64) -> Result<u32, AllocError> {
        let number = small(self.nodes.len());
        self.sizes.push(size)?;
        self.nodes.push(node)?;
        Ok(number)
    }

    fn push_walk(&mut self, walk: &[Link]) -> Result<Part, AllocError> {
        let first = small(self.words.len());
        for link in walk {
            self.words.push(link.word)?;
        }
        Ok(Part {
            first,
            count: small(walk.len()),
        })
    }

    /// Adds a leaf.
    pub(crate) fn push_leaf(
        &mut self,
        walks: &Walks,
        solved: bool,
        reach: i64,
    ) -> Result<u32, AllocError> {
        let low = self.push_walk(&walks.low)?;
        let high = self.push_walk(&walks.high)?;
        self.push(
            Node::Leaf {
                low,
                high,
                solved,
                reach,
            },
            0,
        )
    }

    /// Adds a leaf for a move that no hoist reaches.
    pub(crate) fn push_stuck(&mut self, m: u32) -> Result<u32, AllocError> {
        self.push(Node::Stuck { m }, 0)
    }

    /// Adds a split.
    pub(crate) fn push_split(&mut self, branches: &[Branch]) -> Result<u32, AllocError> {
        let first = small(self.branches.len());
        let mut size = 1u64;
        for branch in branches {
            size = size.wrapping_add(self.size(branch.node));
            self.branches.push(*branch)?;
        }
        let branches = Part {
            first,
            count: small(branches.len()),
        };
        self.push(Node::Split { branches }, size)
    }
}

// The text of a tree.

use crate::literals::{Literal, Literals, implies};
use crate::search::Search;
use crate::tree::{Node, Part, Tree};
use search_data::{Kind, Problem};
use std::alloc::{AllocError, Global};
use text_writing::{push_number, push_signed, push_word_number, push_word_pair};
use walk_tables::{at, put, small};

// Stands where a decision isn't on the path.
const OFF: u32 = u32::MAX;

/// A node to be written: below which decision, and at which depth of the path.
#[derive(Clone, Copy)]
struct Place {
    node: u32,
    literal: u32,
    depth: usize,
}

/// The leaf whose low walk alone reaches furthest.
#[derive(Clone, Copy)]
pub(crate) struct Far {
    pub(crate) node: u32,
    pub(crate) reach: i64,
}

/// Writes the nodes of a tree in preorder.
#[derive(Drop)]
pub(crate) struct TreeText<'a> {
    alloc: Global,
    problem: &'a Problem,
    tree: &'a Tree,
    literals: &'a Literals,
    /// The leaf that is written as left.
    left: Option<u32>,
    pub(crate) text: Vec<u8>,
    pub(crate) splits: u64,
    pub(crate) far: Far,
    path: Vec<u32>,
    /// By decision: its place on the path.
    places: Vec<u32>,
    stack: Vec<Place>,
}

impl<'a> TreeText<'a> {
    /// Nothing is written yet.
    pub(crate) fn new(
        alloc: Global,
        search: &'a Search<'_>,
        left: Option<u32>,
    ) -> Result<TreeText<'a>, AllocError> {
        let mut places = Vec::new(alloc);
        places.resize(search.literals.len(), OFF)?;
        Ok(TreeText {
            alloc,
            problem: search.problem,
            tree: &search.tree,
            literals: &search.literals,
            left,
            text: Vec::new(alloc),
            splits: 0,
            far: Far { node: 0, reach: -1 },
            path: Vec::new(alloc),
            places,
            stack: Vec::new(alloc),
        })
    }

    /// Writes the tree below a node.
    pub(crate) fn write(&mut self, root: u32) -> Result<(), AllocError> {
        self.far.node = root;
        self.stack.push(Place {
            node: root,
            literal: OFF,
            depth: 0,
        })?;
        for _turn in 0..u64::MAX {
            let Some(place) = self.stack.pop() else { break };
            self.go_to(place)?;
            self.write_node(place.node)?;
        }
        Ok(())
    }

    // Makes the path that of a node.
    fn go_to(&mut self, place: Place) -> Result<(), AllocError> {
        for _turn in 0..self.path.len() {
            if self.path.len() <= place.depth.saturating_sub(1) {
                break;
            }
            if let Some(literal) = self.path.pop() {
                put(&mut self.places, literal as usize, OFF);
            }
        }
        if place.literal != OFF {
            put(
                &mut self.places,
                place.literal as usize,
                small(self.path.len()),
            );
            self.path.push(place.literal)?;
        }
        Ok(())
    }

    // The place of the first decision on the path that makes one hold.
    fn place_of(&self, literal: u32) -> Option<usize> {
        let wanted = self.literals.get(literal);
        for place in 0..self.path.len() {
            if implies(self.literals.get(at(&self.path, place, OFF)), wanted) {
                return Some(place);
            }
        }
        None
    }

    fn push_node(&mut self, node: u32, literal: u32) -> Result<(), AllocError> {
        let depth = self.path.len().wrapping_add(1);
        self.stack.push(Place {
            node,
            literal,
            depth,
        })?;
        Ok(())
    }

    fn write_node(&mut self, number: u32) -> Result<(), AllocError> {
        match self.tree.node(number) {
            Node::Split { branches } => self.write_split(branches),
            Node::Stuck { m } => self.write_stuck(m as usize),
            Node::Leaf { low, .. } if self.left == Some(number) => {
                if low.count == 0 {
                    self.text.extend_from_slice(b"left none")?;
                } else {
                    self.text.extend_from_slice(b"left")?;
                    self.write_walk(low)?;
                }
                self.end_line()
            }
            Node::Leaf {
                low,
                high,
                solved,
                reach,
            } => {
                if reach > self.far.reach {
                    self.far = Far {
                        node: number,
                        reach,
                    };
                }
                self.write_leaf(low, high, solved)
            }
        }
    }

    fn end_line(&mut self) -> Result<(), AllocError> {
        self.text.push(b'\n')?;
        Ok(())
    }

    fn write_leaf(&mut self, low: Part, high: Part, solved: bool) -> Result<(), AllocError> {
        if solved {
            self.text.extend_from_slice(b"solved")?;
            self.write_walk(low)?;
            return self.end_line();
        }
        self.text.extend_from_slice(b"closed")?;
        if low.count > 0 {
            self.text.extend_from_slice(b" low")?;
            self.write_walk(low)?;
        }
        if high.count > 0 {
            self.text.extend_from_slice(b" high")?;
            self.write_walk(high)?;
        }
        self.end_line()
    }

    fn write_stuck(&mut self, m: usize) -> Result<(), AllocError> {
        self.text.extend_from_slice(b"closed stuck")?;
        if !self.problem.single {
            let carrier = self.problem.carrier_of_move(m);
            push_word_number(&mut self.text, b" ", carrier as u64)?;
        }
        push_word_number(&mut self.text, b" ", self.problem.step_of(m) as u64)?;
        self.end_line()
    }

    // The first child of a split that holds on the path already: it stands for the split.
    fn held(&self, branches: Part) -> Option<u32> {
        for i in 0..branches.count {
            let branch = self.tree.branch(branches, i);
            if self.place_of(branch.literal).is_some() {
                return Some(branch.node);
            }
        }
        None
    }

    fn write_split(&mut self, branches: Part) -> Result<(), AllocError> {
        if let Some(node) = self.held(branches) {
            return self.push_node(node, OFF);
        }
        self.splits = self.splits.wrapping_add(1);
        self.write_question(branches)?;
        for i in (0..branches.count).rev() {
            let branch = self.tree.branch(branches, i);
            self.push_node(branch.node, branch.literal)?;
        }
        self.end_line()
    }

    fn write_question(&mut self, branches: Part) -> Result<(), AllocError> {
        match self.literals.get(self.tree.branch(branches, 0).literal) {
            Literal::Order { pair, q, .. } => self.write_order(pair as usize, q),
            Literal::Take { visit, .. } => {
                self.write_visit(b"split choose ", visit as usize)?;
                push_word_number(&mut self.text, b" ", u64::from(branches.count))
            }
            Literal::Give { m, .. } => {
                self.write_move(b"split assign ", m as usize)?;
                push_word_number(&mut self.text, b" ", u64::from(branches.count))
            }
        }
    }

    fn write_order(&mut self, pair: usize, q: i64) -> Result<(), AllocError> {
        if let Some(pair) = self.problem.pairs.get(pair) {
            let (a, b) = (pair.a as usize, pair.b as usize);
            if pair.tank {
                self.write_visit(b"split tank ", a)?;
                self.write_visit(b" ", b)?;
            } else {
                self.write_move(b"split hoist ", a)?;
                self.write_move(b" ", b)?;
            }
        }
        self.text.push(b' ')?;
        push_signed(&mut self.text, q)
    }

    fn write_visit(&mut self, word: &[u8], visit: usize) -> Result<(), AllocError> {
        let carrier = self.problem.carrier_of(visit);
        push_word_pair(
            &mut self.text,
            word,
            small(carrier),
            small(self.problem.stage_of(visit)),
        )
    }

    fn write_move(&mut self, word: &[u8], m: usize) -> Result<(), AllocError> {
        let carrier = self.problem.carrier_of_move(m);
        push_word_pair(
            &mut self.text,
            word,
            small(carrier),
            small(self.problem.step_of(m)),
        )
    }

    fn write_walk(&mut self, walk: Part) -> Result<(), AllocError> {
        push_word_number(&mut self.text, b" ", u64::from(walk.count))?;
        for i in 0..walk.count {
            self.write_token(self.tree.word(walk, i))?;
        }
        Ok(())
    }

    fn write_token(&mut self, word: u32) -> Result<(), AllocError> {
        let Some(fixed) = self.problem.base.get(word as usize) else {
            return self.write_decided(word)
        };
        let (kind, carrier, place) = (fixed.kind, fixed.carrier, fixed.place);
        let letter: &[u8] = match kind {
            Kind::Min => b" m ",
            Kind::Max => b" x ",
            Kind::Entry => b" e ",
            Kind::Visit => b" v ",
            Kind::Repeat => b" r ",
        };
        if kind == Kind::Entry {
            return push_word_number(&mut self.text, letter, u64::from(carrier));
        }
        push_word_pair(&mut self.text, letter, carrier, place)
    }

    // The place of the decision that stands for a word.
    fn write_decided(&mut self, word: u32) -> Result<(), AllocError> {
        let literal = word.wrapping_sub(small(self.problem.base.len()));
        let mut place = at(&self.places, literal as usize, OFF);
        if place == OFF {
            place = small(self.place_of(literal).unwrap_or(0));
        }
        self.text.extend_from_slice(b" d ")?;
        push_number(&mut self.text, u64::from(place))
    }
}

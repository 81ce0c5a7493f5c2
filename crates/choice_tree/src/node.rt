// The nodes of a tree.
ghost use Rattle.std.specs.Prelude.{◌≡◌};
ghost use Rattle.choice_tree.specs.Nodes.{children_of};

use crate::constraint::Proof;
use crate::question::Question;
use hoist_base::MoveId;
use std::marker::Model;

/// The numbers of a split's children, seen as a list.
#[derive(Debug, Drop)]
pub struct Children {
    numbers: Vec<u32>,
}

impl Model for Children {
    ghost use Rattle.std.specs.Prelude.{List, ℕ};

    ghost Value = { List ℕ };

    ghost view = { λ children. children.numbers.items };
}

impl Children {
    /// These children, in this order. It takes no memory.
    pub fn from_vec(numbers: Vec<u32>) -> Self
        ensures { result ≡ numbers.items }
    {
        Children { numbers }
    }

    /// The numbers of the children, in the order of the answers to the question.
    pub fn as_slice(&self) -> &[u32]
        ensures { result.now ≡ self.now }
    {
        self.numbers.as_slice()
    }
}

/// A node of a tree: a split with a child for each answer to its question, or a leaf.
///
/// - `Closed`: `low` and `high` together refute every period below the bound.
/// - `Stuck`: no hoist may reach move `m`.
/// - `Solved`: there is a timetable; `low` refutes every smaller period.
/// - `Left`: not expanded; `low`, where there is one, is the walk of the split above.
#[derive(Debug, Drop)]
pub enum Node {
    Split {
        question: Question,
        children: Children,
    },
    Closed {
        low: Option<Proof>,
        high: Option<Proof>,
    },
    Stuck {
        m: MoveId,
    },
    Solved {
        low: Proof,
    },
    Left {
        low: Option<Proof>,
    },
}

impl Node {
    /// The numbers of the node's children; a leaf has none.
    pub fn children(&self) -> &[u32]
        ensures { result.now ≡ children_of self.now }
    {
        match self {
            Node::Split { children, .. } => children.as_slice(),
            _ => &[],
        }
    }
}

//! What `margin` answers.

ghost use Rattle.std.specs.Prelude.{◌≡◌};

use hoist_base::MoveId;
use node_expand::Ticks;
use std::marker::Model;

/// A constraint between the starts of two moves: at a margin of G ticks, `to` starts at least `w + g * G` ticks after
/// `from`.
#[derive(Clone, Copy, Debug, PartialEq, Eq)]
pub struct MarginArc {
    pub from: MoveId,
    pub to: MoveId,
    pub w: i64,
    pub g: u32,
}

/// A closed walk of constraints, seen as their list in walking order.
#[derive(Debug, Drop)]
pub struct MarginWalk {
    arcs: Vec<MarginArc>,
}

impl Model for MarginWalk {
    ghost use Rattle.std.specs.Prelude.{List};
    ghost use Rattle.window_margin.specs.declared.reads.MarginArc.{MarginArc};

    ghost Value = { List MarginArc };

    ghost view = { λ walk. walk.arcs.items };
}

impl MarginWalk {
    /// The walk of these constraints. It takes no memory.
    pub fn from_vec(arcs: Vec<MarginArc>) -> Self
        ensures { result ≡ arcs.items }
    {
        MarginWalk { arcs }
    }

    /// The constraints in walking order.
    pub fn as_slice(&self) -> &[MarginArc]
        ensures { result.now ≡ self.now }
    {
        self.arcs.as_slice()
    }
}

/// The margin of a timetable's windows.
///
/// - `NoWindow`: the line has no inner stage.
/// - `Found`: the greatest number of ticks by which all windows of some sibling could be narrowed; the starts of such a
///   sibling, by the numbers of the moves, less the line's load time; and a closed walk of constraints that asks for
///   more than 0 ticks at a margin of 1 more.
#[derive(Debug, Drop)]
pub enum MarginRead {
    NoWindow,
    Found {
        ticks: u32,
        starts: Ticks,
        walk: MarginWalk,
    },
}

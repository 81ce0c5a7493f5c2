// What holds below a path.

use crate::literals::Literal;
use walk_tables::Arc;

/// The least and the greatest period that is feasible below a path, and the longest walks at both.
///
/// Of equal values the steeper counts at the least, the flatter at the greatest.
#[derive(Drop)]
pub(crate) struct State {
    pub(crate) low: i64,
    pub(crate) high: i64,
    pub(crate) at_low: Vec<i64>,
    pub(crate) at_high: Vec<i64>,
}

/// A range of periods; empty where `low` is above `high`.
#[derive(Clone, Copy)]
pub(crate) struct Range {
    pub(crate) low: i64,
    pub(crate) high: i64,
}

impl Range {
    #[inline]
    pub(crate) fn is_empty(self) -> bool {
        self.low > self.high
    }

    /// The periods of both.
    #[inline]
    pub(crate) fn and(self, other: Range) -> Range {
        Range {
            low: self.low.max(other.low),
            high: self.high.min(other.high),
        }
    }
}

/// What is known of a pair while both of its things are settled: the weights of its two constraints at q = 0, and by
/// how much the hoist of b is above that of a.
#[derive(Clone, Copy)]
pub(crate) struct Weights {
    pub(crate) first: i64,
    pub(crate) second: i64,
    pub(crate) diff: i64,
}

/// A constraint that a choice of a tank makes stronger, with its number.
#[derive(Clone, Copy)]
pub(crate) struct Change {
    pub(crate) arc: Arc,
    pub(crate) word: u32,
}

/// A child of a question: the decision, the constraint of an order, what a tank changes and the move that it leaves to
/// no hoist, its state where it is open, and a measure of its size, 0 to 1024.
#[derive(Drop)]
pub(crate) struct Kid {
    pub(crate) literal: Literal,
    pub(crate) arc: Option<Arc>,
    pub(crate) changes: Vec<Change>,
    pub(crate) stuck: Option<u32>,
    pub(crate) state: Option<State>,
    pub(crate) size: i64,
}

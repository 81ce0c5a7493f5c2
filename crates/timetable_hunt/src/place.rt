//! A state of the search for a timetable of one period.

use crate::lists::copy_list;
use crate::rides::Apart;
use std::alloc::{AllocError, Global};

/// The least and the greatest order that is left for a pair.
#[derive(Clone, Copy)]
pub(crate) struct Orders {
    pub(crate) low: i32,
    pub(crate) high: i32,
}

/// All orders.
pub(crate) const ALL: Orders = Orders {
    low: -1_048_576,
    high: 1_048_576,
};

/// Stands for the orders of a pair that has none.
pub(crate) const NONE: Orders = Orders {
    low: i32::MIN,
    high: i32::MIN,
};

/// What is settled below the decisions so far.
#[derive(Drop)]
pub(crate) struct Place {
    /// The least ticks from the start of each move to that of each other one.
    pub(crate) table: Vec<i32>,
    /// The hoists that are left for each move.
    pub(crate) masks: Vec<u8>,
    /// What each pair forbids, whichever of these hoists are taken.
    pub(crate) weights: Vec<Apart>,
    /// The orders that are left for each pair.
    pub(crate) orders: Vec<Orders>,
    /// The pairs whose order is open.
    pub(crate) open: Vec<u32>,
}

impl Place {
    /// A state with nothing in it.
    pub(crate) fn new(alloc: Global) -> Place {
        Place {
            table: Vec::new(alloc),
            masks: Vec::new(alloc),
            weights: Vec::new(alloc),
            orders: Vec::new(alloc),
            open: Vec::new(alloc),
        }
    }

    /// Makes this state the same as another one.
    pub(crate) fn copy(&mut self, other: &Place) -> Result<(), AllocError> {
        copy_list(&mut self.table, other.table.as_slice())?;
        copy_list(&mut self.masks, other.masks.as_slice())?;
        copy_list(&mut self.weights, other.weights.as_slice())?;
        copy_list(&mut self.orders, other.orders.as_slice())?;
        copy_list(&mut self.open, other.open.as_slice())
    }
}

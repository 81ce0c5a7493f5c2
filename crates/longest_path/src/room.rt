//! Room for the rounds of many systems, one after another.

ghost use Rattle.std.specs.Prelude.{◌≡◌, ◌+◌, ◌*◌, [], length, OnOk};
ghost use Rattle.longest_path.specs.Room.{HasRoom};

use crate::System;
use std::alloc::{AllocError, Global};

/// A constraint as a round takes it: with its weight at one period.
#[derive(Clone, Copy, Debug, Drop)]
pub struct Step {
    pub from: u32,
    pub to: u32,
    pub weight: i64,
}

/// The greatest weights at one period of the constraints between near nodes, one number a node.
///
/// Most constraints of a line are such: dwells lead from a move to the next one and back, repeats from a move to
/// itself. In rows by node they are taken several at a time and without a look at their ends.
#[derive(Debug, Drop)]
pub struct Near {
    /// From the node itself; 0 where there is none, or none above 0.
    pub stay: Vec<i64>,
    /// From the node before it.
    pub rise: Vec<i64>,
    /// From the node behind it.
    pub fall: Vec<i64>,
}

/// Room that the rounds of many calls use one after another.
///
/// Its numbers mean nothing between two calls: any room serves any system, whatever was left in it, and a call gives it
/// the lengths that its system needs.
#[derive(Debug, Drop)]
pub struct Room {
    /// The constraints between near nodes at one period.
    pub near: Near,
    /// The other constraints that count at one period.
    pub steps: Vec<Step>,
    /// Rows of one number a node, one row a round.
    pub rows: Vec<i64>,
    /// For each node the step at which a way back came to it.
    pub seen: Vec<u32>,
    /// The constraints of a way back.
    pub back: Vec<u32>,
    /// For each node the first constraint that ends there.
    pub firsts: Vec<u32>,
    /// For each constraint the next one that ends where it ends.
    pub nexts: Vec<u32>,
}

impl Room {
    /// Empty room, which takes no memory yet.
    pub fn new(alloc: Global) -> Room
        ensures { (result.steps.items ≡ []) × (result.rows.items ≡ []) × (result.seen.items ≡ [])
            × (result.back.items ≡ []) }
    {
        Room {
            near: Near {
                stay: Vec::new(alloc),
                rise: Vec::new(alloc),
                fall: Vec::new(alloc),
            },
            steps: Vec::new(alloc),
            rows: Vec::new(alloc),
            seen: Vec::new(alloc),
            back: Vec::new(alloc),
            firsts: Vec::new(alloc),
            nexts: Vec::new(alloc),
        }
    }

    /// Gives the room the lengths that a system needs: a number a constraint or a node, and nodes + 1 rows. Where it
    /// shrinks its memory stays.
    pub fn fit(&mut self, s: &System) -> Result<(), AllocError>
        ensures { OnOk result (HasRoom s.now self.new) }
    {
        let arcs = s.arcs().len();
        let n = s.nodes() as usize;
        let none = Step {
            from: 0,
            to: 0,
            weight: 0,
        };
        self.near.stay.resize(n, 0)?;
        self.near.rise.resize(n, 0)?;
        self.near.fall.resize(n, 0)?;
        self.steps.resize(arcs, none)?;
        self.rows.resize((n + 1) * n, 0)?;
        self.seen.resize(n, 0)?;
        self.back.resize(n, 0)?;
        self.firsts.resize(n, 0)?;
        self.nexts.resize(arcs, 0)?;
        Ok(())
    }
}

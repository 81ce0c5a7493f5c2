// The names of constraints, and walks of them.
ghost use Rattle.std.specs.Prelude.{◌≡◌, IfOk};

use std::alloc::{AllocError, Global};
use std::marker::Model;

/// Names a constraint of a path; `c` is a carrier and `k` a stage, or a step for `Repeat`.
///
/// - `Min` and `Max`: the least and the greatest dwell at stage `k`.
/// - `Entry`: the next carrier is put on only after this one was lifted.
/// - `Visit`: a visit ends before the same visit of the next period begins.
/// - `Repeat`: a hoist is back at the start of its move one period later.
/// - `Decided`: what decision `i` of the path asks.
#[derive(Clone, Copy, Debug, PartialEq, Eq)]
pub enum Constraint {
    Min { c: u32, k: u32 },
    Max { c: u32, k: u32 },
    Entry { c: u32 },
    Visit { c: u32, k: u32 },
    Repeat { c: u32, k: u32 },
    Decided { i: u32 },
}

/// A closed walk of constraints that refutes periods, seen as the list of the constraints' names in walking order.
#[derive(Debug, Drop)]
pub struct Proof {
    names: Vec<Constraint>,
}

impl Model for Proof {
    ghost use Rattle.std.specs.Prelude.{List};
    ghost use Rattle.choice_tree.specs.declared.constraint.Constraint.{Constraint};

    ghost Value = { List Constraint };

    ghost view = { λ proof. proof.names.items };
}

impl Proof {
    /// The walk with these constraints. It takes no memory.
    pub fn from_vec(names: Vec<Constraint>) -> Self
        ensures { result ≡ names.items }
    {
        Proof { names }
    }

    /// The constraints in walking order.
    pub fn as_slice(&self) -> &[Constraint]
        ensures { result.now ≡ self.now }
    {
        self.names.as_slice()
    }

    /// The same walk once more.
    pub fn copied(&self, alloc: Global) -> Result<Proof, AllocError>
        ensures { IfOk result (λ copy. copy ≡ self.now) }
    {
        let names = self.names.as_slice().to_vec(alloc)?;
        Ok(Proof { names })
    }
}

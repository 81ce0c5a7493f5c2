//! Constraints and systems of them.

ghost use Rattle.std.specs.Prelude.{◌≡◌, ℕ, ◌≤◌, ◌<◌, true, unsigned_abs, IfOk, OnOk, OnErr};
ghost use Rattle.std.specs.Prelude.{List, [], ◌∷◌, ◌++◌, length, take, slice_set};
ghost use Rattle.longest_path.specs.Bounds.{IsWithinCap};
ghost use Rattle.longest_path.specs.System.{IsSystem, IsArc, weight};

use std::alloc::{AllocError, Global};
use std::marker::Model;

/// A constraint between the ticks of two nodes: `t_to - t_from >= w + q * period`, with w in ticks and q in periods.
#[derive(Clone, Copy, Debug, Drop)]
pub struct Arc {
    pub from: u32,
    pub to: u32,
    pub w: i64,
    pub q: i64,
}

impl Arc {
    /// What the constraint asks at a period, in ticks.
    pub fn weight(self, period: u32) -> i64
        requires sizes { (unsigned_abs self.w ≤ 10000000) × (unsigned_abs self.q ≤ 1000000000) }
        requires period { IsWithinCap period }
        ensures value { result ≡ weight self period }
        ensures small { unsigned_abs result ≤ 30000000000000 }
    {
        self.w + self.q * i64::from(period)
    }
}

/// Constraints in their order between the ticks of the nodes 0 to `nodes - 1`.
///
/// There are 1 to 124 nodes and at most 30,000 constraints; the size of w is at most 10,000,000 ticks, that of q at
/// most 1,000,000,000 periods.
#[derive(Debug, Drop)]
pub struct System {
    nodes: u32,
    arcs: Vec<Arc>,
}

impl Model for System {
    ghost use Rattle.longest_path.specs.System.{SystemData, IsSystem};

    ghost Value = { SystemData };

    ghost view = { λ a. record { nodes = a.nodes; arcs = a.arcs.items } };

    ghost invariant = { λ a. IsSystem (record { nodes = a.nodes; arcs = a.arcs.items }) };
}

impl System {
    /// A system of these constraints.
    pub fn new(nodes: u32, arcs: Vec<Arc>) -> System
        requires { IsSystem (record { nodes = nodes; arcs = arcs.items }) }
        ensures { result ≡ record { nodes = nodes; arcs = arcs.items } }
    {
        System { nodes, arcs }
    }

    /// The number of nodes.
    pub fn nodes(&self) -> u32
        ensures value { result ≡ self.now.nodes }
        ensures valid { IsSystem self.now }
    {
        self.nodes
    }

    /// The constraints; the number of a constraint is its place here.
    pub fn arcs(&self) -> &[Arc]
        ensures value { result.now ≡ self.now.arcs }
        ensures valid { IsSystem self.now }
    {
        self.arcs.as_slice()
    }

    /// Adds a constraint behind all others: true. On want of memory the system is as before.
    pub fn push(&mut self, arc: Arc) -> Result<bool, AllocError>
        requires room { length self.old.arcs < 30000 }
        requires arc { IsArc self.old.nodes arc }
        ensures answer { IfOk result (λ done. done ≡ true) }
        ensures ok { OnOk result (self.new ≡ record { nodes = self.old.nodes; arcs = self.old.arcs ++ arc ∷ [] }) }
        ensures err { OnErr result (self.new ≡ self.old) }
    {
        self.arcs.push(arc)?;
        Ok(true)
    }

    /// Puts a constraint into place i: true. All others stay.
    pub fn set(&mut self, i: u32, arc: Arc) -> bool
        requires i { i < length self.old.arcs }
        requires arc { IsArc self.old.nodes arc }
        ensures answer { result ≡ true }
        ensures value { self.new ≡ record { nodes = self.old.nodes; arcs = slice_set self.old.arcs i arc } }
    {
        self.arcs[i as usize] = arc;
        true
    }

    /// Keeps the first constraints, at most `arcs` of them; the room of the others stays for later ones.
    pub fn truncate(&mut self, arcs: usize)
        ensures { self.new ≡ record { nodes = self.old.nodes; arcs = take arcs self.old.arcs } }
    {
        self.arcs.truncate(arcs);
    }

    /// An equal system of its own.
    pub fn copied(&self, alloc: Global) -> Result<System, AllocError>
        ensures { IfOk result (λ copy. copy ≡ self.now) }
    {
        let arcs = Vec::from_slice(alloc, self.arcs.as_slice())?;
        Ok(System {
            nodes: self.nodes,
            arcs,
        })
    }
}

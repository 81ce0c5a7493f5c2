// The bound of a search: what the walks of its paths left refute.
ghost use Rattle.std.specs.Prelude.{
  ◌≡◌,
  ◌⊎◌,
  ℕ,
  ◌≤◌,
  ◌<◌,
  ◌<ℤ◌,
  ◌↔◌,
  pos,
  length,
  get_or,
  unsigned_abs,
  IsTrue,
  IfOk,
  IfSome,
};
ghost use Rattle.hoist_base.specs.Valid.{IsLine};
ghost use Rattle.longest_path.specs.Bounds.{IsPeriod};
ghost use Rattle.cycle_walk.specs.Refuting.{AreSmall};
ghost use Rattle.choice_tree.specs.declared.constraint.Constraint.{Constraint as Name};
ghost use Rattle.path_constraints.specs.Questions.{FitsPath};
ghost use Rattle.path_constraints.specs.Constraints.{IsConstraint, arc_of};
ghost use Rattle.path_constraints.specs.Proves.{sum_w, sum_q};
ghost use Rattle.branch_rounds.specs.Grown.{cap_of, LowRefutes, IsBound};
ghost use Rattle.branch_rounds.specs.Kept.{IsKept, HasGoodLow};

use crate::state::Search;
use choice_tree::{Constraint, Decision, Node};
use cycle_walk::Sums;
use hoist_base::Line;
use longest_path::Arc;
use path_constraints::constraint_of;
use std::alloc::{AllocError, Global};

// A constraint of a path by its name.
fn constraint_named(line: &Line, path: &[Decision], name: Constraint) -> Arc
    requires fits { FitsPath line.now path.now }
    requires named { IsConstraint line.now path.now name }
    ensures value { result ≡ arc_of line.now path.now name }
    ensures small { (unsigned_abs result.w ≤ 10000000) × (unsigned_abs result.q ≤ 1000000000) }
{
    constraint_of(line, path, name).unwrap()
}

// The sums of constraints of a path.
fn sums_of(line: &Line, path: &[Decision], names: &[Constraint]) -> Sums
    requires fits { FitsPath line.now path.now }
    requires named { (k : ℕ) (x : Name) → k < length names.now → x ≡ get_or names.now k x
        → IsConstraint line.now path.now x }
    requires few { length names.now ≤ 1000 }
    ensures w { result.w ≡ sum_w line.now path.now names.now }
    ensures q { result.q ≡ sum_q line.now path.now names.now }
    ensures small { AreSmall result }
{
    let mut w = 0;
    let mut q = 0;
    for i in 0..names.len() {
        let arc = constraint_named(line, path, names[i]);
        w += arc.w;
        q += arc.q;
    }
    Sums { w, q }
}

// The least period from 1 on that the low of a node left doesn't refute, or the cap where that is less.
fn bound_at(line: &Line, path: &[Decision], node: &Node, cap: u32) -> u32
    requires fits { FitsPath line.now path.now }
    requires low { HasGoodLow line.now path.now node.now }
    requires cap { IsPeriod cap }
    ensures some { 1 ≤ result }
    ensures most { result ≤ cap }
    ensures refuted { (t : ℕ) → 1 ≤ t → t < result → LowRefutes line.now path.now node.now t }
    ensures kept { result < cap → LowRefutes line.now path.now node.now result → ⊥ }
{
    match node {
        Node::Left { low: Some(low) } => sums_of(line, path, low.as_slice()).least_kept(cap),
        _ => 1,
    }
}

impl Search {
    /// The bound: the least period that the low of some path left doesn't refute, or the cap where that is less.
    pub(crate) fn bound(&self, alloc: Global, line: &Line) -> Result<u32, AllocError>
        requires { IsKept line.now self.now }
        ensures bound { IfOk result (λ bound. IsBound line.now self.now bound) }
        ensures valid { IsLine line.now }
    {
        let mut bound = self.cap(line);
        for k in 0..self.frontier.len() {
            let node = self.frontier.node(k);
            let path = self.tree.path(alloc, node)?;
            bound = bound_at(line, path.as_slice(), self.tree.node(node), bound);
        }
        Ok(bound)
    }
}

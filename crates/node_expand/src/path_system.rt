// The constraints of a path, kept from path to path.
ghost use Rattle.std.specs.Prelude.{◌≡◌, ℕ, ◌+◌, ◌<◌, ◌≤◌, [], ◌++◌, length, take, map, get_or, IfOk, OnOk, OnErr};
ghost use Rattle.choice_tree.specs.declared.constraint.Constraint.{Constraint};
ghost use Rattle.path_constraints.specs.Constraints.{decided_by};
ghost use Rattle.path_constraints.specs.Questions.{FitsPath};
ghost use Rattle.path_constraints.specs.Places.{system_below};
ghost use Rattle.node_expand.specs.PathSystems.{IsPathSystem, IsAt, Outgrows, IsPrefix};

use crate::names::undecided_names;
use choice_tree::{Constraint, Decision, Proof, Question};
use cycle_walk::Walk;
use hoist_base::Line;
use longest_path::System;
use path_constraints::decide;
use std::alloc::{AllocError, Global};

/// A path, the system of its constraints, and their names in the order of the system.
///
/// It goes from path to path: what two paths begin with in common stays, and only what differs is taken back and taken
/// in.
#[derive(Debug, Drop)]
pub(crate) struct PathSystem {
    pub(crate) path: Vec<Decision>,
    pub(crate) system: System,
    pub(crate) names: Vec<Constraint>,
    /// The system before any decision.
    pub(crate) base: System,
}

// Adds the name of the constraint that decision `i` asks, where it asks one.
fn push_name(names: &mut Vec<Constraint>, question: Question, i: u32) -> Result<(), AllocError>
    ensures ok { OnOk result (names.new.items ≡ names.old.items ++ decided_by question i) }
    ensures err { OnErr result (names.new.items ≡ names.old.items) }
{
    match question {
        Question::Assign { .. } => Ok(()),
        Question::Choose { .. } => Ok(()),
        _ => {
            names.push(Constraint::Decided { i })?;
            Ok(())
        }
    }
}

// How many decisions two paths begin with in common.
fn shared(kept: &[Decision], path: &[Decision]) -> usize
    ensures within { (result ≤ length kept.now) × (result ≤ length path.now) }
    ensures same { take result kept.now ≡ take result path.now }
{
    let count = kept.len().min(path.len());
    for i in 0..count {
        if kept[i] != path[i] {
            return i;
        }
    }
    count
}

// Puts the constraints of a longer system of as many nodes back to those of the base.
fn restore(system: &mut System, base: &System)
    requires nodes { system.old.nodes ≡ base.now.nodes }
    requires longer { length base.now.arcs ≤ length system.old.arcs }
    ensures { system.new ≡ base.now }
{
    let count = base.arcs().len();
    system.truncate(count);
    for k in 0..count {
        let arc = base.arcs()[k];
        system.set(k as u32, arc);
    }
}

impl PathSystem {
    /// The path without decisions, on the system of the line before any decision.
    pub(crate) fn new(alloc: Global, line: &Line, base: &System) -> Result<PathSystem, AllocError>
        requires { base.now ≡ system_below line.now [] }
        ensures { IfOk result (λ at. IsPathSystem line.now at) }
    {
        let names = undecided_names(alloc, line)?;
        let system = base.copied(alloc)?;
        let base = base.copied(alloc)?;
        Ok(PathSystem {
            path: Vec::new(alloc),
            system,
            names,
            base,
        })
    }

    // Takes decision `i` of a path in. On want of memory the path and the names may have grown.
    fn take_in(&mut self, line: &Line, path: &[Decision], i: usize) -> Result<(), AllocError>
        requires fits { FitsPath line.now path.now }
        requires there { i < length path.now }
        requires short { length path.now ≤ 20000 }
        requires at { IsAt line.now (take i path.now) self.old }
        ensures ok { OnOk result (IsAt line.now (take (i + 1) path.now) self.new) }
        ensures err { OnErr result (Outgrows self.old self.new) }
    {
        let decision = path[i];
        self.path.push(decision)?;
        push_name(&mut self.names, decision.question, i as u32)?;
        decide(&mut self.system, line, path, i as u32)?;
        Ok(())
    }

    // Takes decision `i` of a path in. On want of memory nothing changes.
    fn push(&mut self, line: &Line, path: &[Decision], i: usize) -> Result<(), AllocError>
        requires fits { FitsPath line.now path.now }
        requires there { i < length path.now }
        requires short { length path.now ≤ 20000 }
        requires at { IsAt line.now (take i path.now) self.old }
        ensures ok { OnOk result (IsAt line.now (take (i + 1) path.now) self.new) }
        ensures err { OnErr result (IsAt line.now (take i path.now) self.new) }
    {
        let known = self.names.len();
        match self.take_in(line, path, i) {
            Ok(()) => Ok(()),
            Err(error) => {
                self.path.truncate(i);
                self.names.truncate(known);
                Err(error)
            }
        }
    }

    // Goes back to the path without decisions.
    fn restart(&mut self, line: &Line)
        requires { IsPathSystem line.now self.old }
        ensures { IsAt line.now [] self.new }
    {
        self.path.clear();
        self.names.truncate(self.base.arcs().len());
        restore(&mut self.system, &self.base);
    }

    // Takes the last decision back, or all of them where the last one is a choice, which changes constraints in place.
    fn pop(&mut self, line: &Line)
        requires path { IsPathSystem line.now self.old }
        requires some { 0 < length self.old.path.items }
        ensures path { IsPathSystem line.now self.new }
        ensures prefix { IsPrefix self.new.path.items self.old.path.items }
        ensures shorter { length self.new.path.items < length self.old.path.items }
    {
        let count = self.path.len() - 1;
        match self.path[count].question {
            Question::Choose { .. } => self.restart(line),
            Question::Assign { .. } => self.path.truncate(count),
            _ => {
                self.path.truncate(count);
                let known = self.names.len() - 1;
                self.names.truncate(known);
                self.system.truncate(known);
            }
        }
    }

    // Takes decisions back until at most so many are left.
    fn go_back(&mut self, line: &Line, count: usize)
        requires path { IsPathSystem line.now self.old }
        ensures path { IsPathSystem line.now self.new }
        ensures prefix { IsPrefix self.new.path.items self.old.path.items }
        ensures within { length self.new.path.items ≤ count }
    {
        while self.path.len() > count {
            self.pop(line);
        }
    }

    /// Goes to a path. On want of memory it stays at a part of that path.
    pub(crate) fn go_to(&mut self, line: &Line, path: &[Decision]) -> Result<(), AllocError>
        requires system { IsPathSystem line.now self.old }
        requires fits { FitsPath line.now path.now }
        requires short { length path.now ≤ 20000 }
        ensures kept { IsPathSystem line.now self.new }
        ensures there { OnOk result (IsAt line.now path.now self.new) }
    {
        let count = shared(self.path.as_slice(), path);
        self.go_back(line, count);
        for i in self.path.len()..path.len() {
            self.push(line, path, i)?;
        }
        Ok(())
    }

    /// The names of the constraints of a walk.
    pub(crate) fn proof_of(&self, alloc: Global, walk: &Walk) -> Result<Proof, AllocError>
        requires { (k : ℕ) → k < length walk.now.arcs → get_or walk.now.arcs k 0 < length self.now.names.items }
        ensures { IfOk result (λ proof. proof ≡ map
            (λ k. get_or self.now.names.items k (Constraint.Entry 0)) walk.now.arcs) }
    {
        let arcs = walk.arcs();
        let mut names = Vec::with_capacity(alloc, arcs.len())?;
        for k in arcs {
            names.push(self.names[*k as usize])?;
        }
        Ok(Proof::from_vec(names))
    }
}

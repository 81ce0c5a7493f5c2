// The paths that are left, in their order.
ghost use Rattle.std.specs.Prelude.{◌≡◌, ◌<◌, ◌≤◌, [], ◌∷◌, ◌++◌, length, get_or, drop, IfOk, OnOk};

use std::alloc::{AllocError, Global};
use std::marker::Model;

/// The numbers of the nodes that are left, in the order of their paths.
///
/// They are kept as a stack with the first path on top: a round takes the first paths away and puts their children in
/// their place, and touches no other.
#[derive(Debug, Drop)]
pub(crate) struct Frontier {
    stack: Vec<u32>,
}

impl Model for Frontier {
    ghost use Rattle.std.specs.Prelude.{List, ℕ, reverse};

    ghost Value = { List ℕ };

    ghost view = { λ frontier. reverse frontier.stack.items };
}

impl Frontier {
    /// The root alone.
    pub(crate) fn of_root(alloc: Global) -> Result<Frontier, AllocError>
        ensures { IfOk result (λ frontier. frontier ≡ 0 ∷ []) }
    {
        let mut stack = Vec::new(alloc);
        stack.push(0)?;
        Ok(Frontier { stack })
    }

    /// How many paths are left.
    pub(crate) fn len(&self) -> usize
        ensures { result ≡ length self.now }
    {
        self.stack.len()
    }

    /// The node of path k.
    pub(crate) fn node(&self, k: usize) -> u32
        requires { k < length self.now }
        ensures { result ≡ get_or self.now k 0 }
    {
        self.stack[self.stack.len() - 1 - k]
    }

    /// Puts these paths in the place of the first `count`.
    pub(crate) fn replace_first(&mut self, count: usize, paths: &[u32]) -> Result<(), AllocError>
        requires { count ≤ length self.old }
        ensures { OnOk result (self.new ≡ paths.now ++ drop count self.old) }
    {
        self.stack.truncate(self.stack.len() - count);
        for k in 0..paths.len() {
            self.stack.push(paths[paths.len() - 1 - k])?;
        }
        Ok(())
    }
}

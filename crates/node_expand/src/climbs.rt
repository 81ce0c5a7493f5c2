// The climbs of recent paths.
ghost use Rattle.std.specs.Prelude.{◌≡◌, ℕ, ◌<◌, ◌≤◌, length, take, All, IfOk, IfSome, IsTrue};
ghost use Rattle.hoist_base.specs.LineData.{LineData};
ghost use Rattle.node_expand.specs.Climbs.{EndsInHoists, IsLeastPeriodOf, AreClimbs, IsClimbOf};

use crate::least_period::LeastPeriod;
use choice_tree::{Decision, Question};
use std::alloc::{AllocError, Global};

// How many climbs are remembered at most: those of eight rounds of the search.
const MOST: usize = 512;

/// A path, and what the climb over its system found.
#[derive(Debug, Drop)]
pub(crate) struct Climb {
    pub(crate) path: Vec<Decision>,
    pub(crate) least: LeastPeriod,
}

/// The climbs of recent paths that a question on a hoist splits.
///
/// A decision on a hoist adds no constraint, so the least period of each child of such a path is that of the path, and
/// needs no climb of its own.
#[derive(Debug, Drop)]
pub(crate) struct Climbs {
    pub(crate) kept: Vec<Climb>,
    /// Where the next climb comes: behind the others, or in the place of the oldest.
    pub(crate) next: usize,
    /// Where the last search ended: the children of one path come one after another.
    pub(crate) found: usize,
}

/// How many decisions a path has before the decisions on hoists at its end.
pub(crate) fn without_hoists(path: &[Decision]) -> usize
    ensures within { result ≤ length path.now }
    ensures hoists { EndsInHoists path.now result }
{
    let mut count = path.len();
    while count > 0 {
        match path[count - 1].question {
            Question::Assign { .. } => count -= 1,
            _ => return count,
        }
    }
    count
}

// Whether two paths are the same. They are compared from their ends, where most of them differ.
fn is_same(kept: &[Decision], path: &[Decision]) -> bool
    ensures { IsTrue result → kept.now ≡ path.now }
{
    if kept.len() != path.len() {
        return false;
    }
    let mut left = path.len();
    while left > 0 {
        if kept[left - 1] != path[left - 1] {
            return false;
        }
        left -= 1;
    }
    true
}

impl Climbs {
    /// No climbs.
    pub(crate) fn new(alloc: Global) -> Climbs
        ensures { (l : LineData) → AreClimbs l result }
    {
        Climbs {
            kept: Vec::new(alloc),
            next: 0,
            found: 0,
        }
    }

    // Where the climb of a path stands, if it is remembered and its period is below the cap. It is looked for from
    // where the last one was found.
    fn stands_at(&self, path: &[Decision], cap: u32) -> Option<usize>
        requires few { (length self.now.kept.items ≤ 512) × (self.now.found ≤ 512) }
        ensures { IfSome result (λ k. IsClimbOf path.now cap self.now k) }
    {
        let count = self.kept.len();
        for step in 0..count {
            let k = (self.found + step) % count;
            let climb = &self.kept[k];
            if climb.least.period < cap && is_same(climb.path.as_slice(), path) {
                return Some(k);
            }
        }
        None
    }

    /// Where the climb of a path stands, if it is remembered and its period is below the cap.
    pub(crate) fn find(&mut self, path: &[Decision], cap: u32) -> Option<usize>
        requires few { (length self.old.kept.items ≤ 512) × (self.old.found ≤ 512) }
        ensures same { (self.new.kept ≡ self.old.kept) × (self.new.next ≡ self.old.next) }
        ensures found { self.new.found ≤ 512 }
        ensures climb { IfSome result (λ k. IsClimbOf path.now cap self.new k) }
    {
        let found = self.stands_at(path, cap);
        if let Some(k) = found {
            self.found = k;
        }
        found
    }

    /// Remembers the climb of a path, in the place of the oldest where there are too many.
    pub(crate) fn keep(
        &mut self,
        alloc: Global,
        path: &[Decision],
        least: &LeastPeriod,
    ) -> Result<(), AllocError>
        requires next { self.old.next < 512 }
        ensures { (l : LineData) → AreClimbs l self.old → IsLeastPeriodOf l path.now least.now → AreClimbs l self.new }
    {
        let path = Vec::from_slice(alloc, path)?;
        let least = least.copied(alloc)?;
        let climb = Climb { path, least };
        if self.next < self.kept.len() {
            self.kept[self.next] = climb;
        } else {
            self.kept.push(climb)?;
        }
        self.next = (self.next + 1) % MOST;
        Ok(())
    }
}

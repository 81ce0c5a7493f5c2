//! The constraints of a system packed for the rounds at one period.

ghost use Rattle.std.specs.Prelude.{◌≡◌, ◌≤◌, ◌<◌, length};
ghost use Rattle.longest_path.specs.Bounds.{IsWithinCap};
ghost use Rattle.longest_path.specs.Near.{HasNodes, IsClear, IsPacked, Takes, raised_to};

use crate::{Near, Step, System};

// Stands where no constraint leads: below all that constraints bring, by more than they bring back.
const NONE: i64 = -100_000_000_000_000_000;

// Raises a number of a row to a weight.
#[inline]
fn raise_to(row: &mut [i64], i: usize, weight: i64)
    requires { i < length row.old }
    ensures { row.new ≡ raised_to row.old i weight }
{
    row[i] = row[i].max(weight);
}

impl Near {
    // No constraint.
    fn clear(&mut self)
        requires { HasNodes (length self.old.stay.items) self.old }
        ensures nodes { HasNodes (length self.old.stay.items) self.new }
        ensures clear { IsClear (length self.old.stay.items) self.new }
    {
        self.stay.fill(0);
        self.rise.fill(NONE);
        self.fall.fill(NONE);
    }

    // Takes a constraint that leads between near nodes: whether it does.
    #[inline]
    fn take(&mut self, from: u32, to: u32, weight: i64) -> bool
        requires there { (to < length self.old.stay.items) × (to < length self.old.rise.items)
            × (to < length self.old.fall.items) }
        requires ends { (from < 124) × (to < 124) }
        ensures { Takes from to weight result self.old self.new }
    {
        let i = to as usize;
        if from == to {
            raise_to(&mut self.stay, i, weight);
            return true;
        }
        if from + 1 == to {
            raise_to(&mut self.rise, i, weight);
            return true;
        }
        if from == to + 1 {
            raise_to(&mut self.fall, i, weight);
            return true;
        }
        false
    }
}

// Packs the constraints with their weights at a period: those between near nodes by node, the others one after another.
// Answers how many others there are.
pub(crate) fn pack(s: &System, period: u32, near: &mut Near, steps: &mut [Step]) -> usize
    requires period { IsWithinCap period }
    requires near { HasNodes s.now.nodes near.old }
    requires count { length steps.old ≡ length s.now.arcs }
    ensures { IsPacked s.now period (length s.now.arcs) result near.new steps.new }
{
    near.clear();
    let arcs = s.arcs();
    let mut count = 0;
    for k in 0..arcs.len() {
        let a = arcs[k];
        let weight = a.weight(period);
        if !near.take(a.from, a.to, weight) {
            steps[count] = Step {
                from: a.from,
                to: a.to,
                weight,
            };
            count += 1;
        }
    }
    count
}

//! Which constraints end at each node.

ghost use Rattle.std.specs.Prelude.{◌≡◌, length};
ghost use Rattle.longest_path.specs.System.{IsSystem};
ghost use Rattle.cycle_walk.specs.Links.{AreLinks};

use longest_path::System;

// Links the constraints that end at each node, from the first on: `firsts` has the first one a node, `nexts` the next
// one a constraint, or the number of constraints where there is none.
pub(crate) fn link(s: &System, firsts: &mut [u32], nexts: &mut [u32])
    requires firsts { length firsts.old ≡ s.now.nodes }
    requires nexts { length nexts.old ≡ length s.now.arcs }
    ensures firsts { length firsts.new ≡ s.now.nodes }
    ensures nexts { length nexts.new ≡ length s.now.arcs }
    ensures valid { IsSystem s.now }
    ensures links { AreLinks s.now firsts.new nexts.new }
{
    let arcs = s.arcs();
    firsts.fill(arcs.len() as u32);
    for i in 0..arcs.len() {
        let k = arcs.len() - 1 - i;
        let to = arcs[k].to as usize;
        nexts[k] = firsts[to];
        firsts[to] = k as u32;
    }
}

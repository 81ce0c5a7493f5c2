//! Going back over walk values from a node whose value grows in the last round.

ghost use Rattle.std.specs.Prelude.{◌≡◌, ℕ, ◌+◌, ◌-◌, ◌*◌, ◌≤◌, ◌<◌, ◌↔◌, length, IsTrue};
ghost use Rattle.std.specs.Prelude.{◌+ℤ◌, ◌<ℤ◌, unsigned_abs, int_lt};
ghost use Rattle.std.specs.Ordering.{int_eq};
ghost use Rattle.longest_path.specs.Bounds.{IsWithinCap};
ghost use Rattle.longest_path.specs.Rounds.{weights_at, cell};
ghost use Rattle.cycle_walk.specs.Values.{AreValues};
ghost use Rattle.cycle_walk.specs.Closed.{first_below, first_fit, Rises};
ghost use Rattle.cycle_walk.specs.Trail.{IsTrail};
ghost use Rattle.cycle_walk.specs.Links.{AreLinks};

use longest_path::System;

#[inline]
fn is_below(now: i64, later: i64) -> bool
    ensures { IsTrue result ↔ (now <ℤ later) }
{
    now < later
}

// The first node that grew in the last row, or n.
pub(crate) fn first_grown(rows: &[i64], n: usize) -> usize
    requires n { (1 ≤ n) × (n ≤ 124) }
    requires table { length rows.now ≡ (n + 1) * n }
    requires small { (r i : ℕ) → r ≤ n → i < n → unsigned_abs (cell n rows.now r i) ≤ 4000000000000000 }
    ensures { result ≡ first_below (λ i. int_lt (cell n rows.now (n - 1) i) (cell n rows.now n i)) n }
{
    let old = (n - 1) * n;
    let new = n * n;
    for i in 0..n {
        if is_below(rows[old + i], rows[new + i]) {
            return i;
        }
    }
    n
}

#[inline]
fn gives(from: i64, weight: i64, wanted: i64) -> bool
    requires from { unsigned_abs from ≤ 4000000000000000 }
    requires weight { unsigned_abs weight ≤ 30000000000000 }
    ensures { result ≡ int_eq (from +ℤ weight) wanted }
{
    from + weight == wanted
}

// The first constraint that ends at node j and brings it its value of m + 1.
fn fit(
    s: &System,
    period: u32,
    rows: &[i64],
    firsts: &[u32],
    nexts: &[u32],
    m: usize,
    j: u32,
) -> usize
    requires period { IsWithinCap period }
    requires m { m < s.now.nodes }
    requires j { j < s.now.nodes }
    requires rows { AreValues s.now period s.now.nodes rows.now }
    requires firsts { length firsts.now ≡ s.now.nodes }
    requires nexts { length nexts.now ≡ length s.now.arcs }
    requires links { AreLinks s.now firsts.now nexts.now }
    ensures { result ≡ first_fit s.now (weights_at s.now period) m j }
{
    let n = s.nodes() as usize;
    let old = m * n;
    let wanted = rows[old + n + j as usize];
    let arcs = s.arcs();
    let mut k = firsts[j as usize] as usize;
    while k < arcs.len() {
        let a = arcs[k];
        if gives(rows[old + a.from as usize], a.weight(period), wanted) {
            return k;
        }
        k = nexts[k] as usize;
    }
    k
}

// The steps of a way back between the two places of the first node that came twice.
#[derive(Clone, Copy)]
pub(crate) struct Turn {
    pub(crate) first: u32,
    pub(crate) end: u32,
}

// Goes back step by step up to the first node that comes again; `seen` tells at which step each node came.
pub(crate) fn go_back(
    s: &System,
    period: u32,
    rows: &[i64],
    firsts: &[u32],
    nexts: &[u32],
    start: u32,
    seen: &mut [u32],
    back: &mut [u32],
) -> Turn
    requires period { IsWithinCap period }
    requires rows { AreValues s.now period s.now.nodes rows.now }
    requires firsts { length firsts.now ≡ s.now.nodes }
    requires nexts { length nexts.now ≡ length s.now.arcs }
    requires links { AreLinks s.now firsts.now nexts.now }
    requires start { start < s.now.nodes }
    requires rises { Rises s.now (weights_at s.now period) start }
    requires seen { length seen.old ≡ s.now.nodes }
    requires back { length back.old ≡ s.now.nodes }
    ensures seen { length seen.new ≡ s.now.nodes }
    ensures back { length back.new ≡ s.now.nodes }
    ensures trail { IsTrail s.now period start back.new result.first result.end }
{
    let n = s.nodes();
    seen.fill(n);
    let mut j = start;
    let mut t = 0;
    while seen[j as usize] == n {
        seen[j as usize] = t;
        let k = fit(s, period, rows, firsts, nexts, (n - 1 - t) as usize, j);
        back[t as usize] = k as u32;
        j = s.arcs()[k].from;
        t += 1;
    }
    let first = seen[j as usize];
    Turn { first, end: t }
}

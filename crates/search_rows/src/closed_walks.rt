ghost use Rattle.std.specs.Prelude.{◌≡◌, ◌-◌, ◌≤◌, unsigned_abs};

use cycle_walk::{Climbed, Sums, Walk, climb, climb_in, closed_walk, closed_walk_in};
use longest_path::{Arc, Room, System};
use std::alloc::{AllocError, Global};
use std::test::Fail;

fn between(from: u32, to: u32, w: i64, q: i64) -> Arc
    ensures { result ≡ record { from = from; to = to; w = w; q = q } }
{
    Arc { from, to, w, q }
}

// The walk has these constraints; none stands for no walk.
fn has(walk: &Option<Walk>, arcs: &[u32]) -> bool {
    match walk {
        Some(walk) => walk.arcs() == arcs,
        None => arcs.is_empty(),
    }
}

fn has_sums(walk: &Option<Walk>, w: i64, q: i64) -> bool {
    match walk {
        Some(walk) => walk.sums() == Sums { w, q },
        None => false,
    }
}

fn is_floor(found: &Climbed, at: u32, arcs: &[u32]) -> bool {
    match found {
        Climbed::Floor { period, low } => *period == at && has(low, arcs),
        Climbed::Shut {
            low: _low,
            high: _high,
        } => false,
    }
}

fn is_shut(found: &Climbed, low_arcs: &[u32], high_arcs: &[u32]) -> bool {
    match found {
        Climbed::Shut { low, high } => has(low, low_arcs) && has(high, high_arcs),
        Climbed::Floor {
            period: _period,
            low: _low,
        } => false,
    }
}

// The walk is the loop of this number, from 1 on; 0 stands for no walk.
fn is_loop(walk: &Option<Walk>, number: u32) -> bool {
    match walk {
        Some(walk) => number > 0 && walk.arcs() == [number - 1].as_slice(),
        None => number == 0,
    }
}

// Two nodes with a bath between them that holds for 5 to 10 ticks.
#[test]
fn one_bath(rt: HostRuntime) -> Result<(), Fail> {
    let alloc = rt.alloc();
    let arcs = vec![in alloc;
        between(0, 1, 10, 0),
        between(1, 0, -15, 0),
        between(0, 0, 1, -1),
        between(1, 0, -3, -1),
        between(1, 1, 1, -1),
        between(0, 0, 8, -1),
        between(1, 1, 8, -1),
    ]?;
    let s = System::new(2, arcs);
    let walk = closed_walk(alloc, &s, 1)?;
    assert!(rt; has(&walk, &[5]) && has_sums(&walk, 8, -1));
    let none = closed_walk(alloc, &s, 8)?;
    assert!(rt; none.is_none());
    let found = climb(alloc, &s, 101)?;
    assert!(rt; is_floor(&found, 8, &[5]));
    let just = climb(alloc, &s, 9)?;
    assert!(rt; is_floor(&just, 8, &[5]));
    let short = climb(alloc, &s, 8)?;
    assert!(rt; is_shut(&short, &[5], &[]));
    Ok(())
}

fn loops(alloc: Global, one: Arc, other: Arc) -> Result<System, AllocError>
    requires one { (one.from ≡ 0) × (one.to ≡ 0) }
    requires one_sizes { (unsigned_abs one.w ≤ 10000000) × (unsigned_abs one.q ≤ 1000000000) }
    requires other { (other.from ≡ 0) × (other.to ≡ 0) }
    requires other_sizes { (unsigned_abs other.w ≤ 10000000) × (unsigned_abs other.q ≤ 1000000000) }
{
    let arcs = vec![in alloc; one, other]?;
    Ok(System::new(1, arcs))
}

// One node with two loops, in one room: fractional periods alone, the first of two equal loops, no loop that asks
// anything, weights at their ends.
#[test]
fn two_loops(rt: HostRuntime) -> Result<(), Fail> {
    let alloc = rt.alloc();
    let mut room = Room::new(alloc);
    for (w, q, other_w, other_q, floor, low, high) in [
        (21, -2, -21, 2, 0, 1, 2),
        (5, -1, 5, -1, 5, 1, 0),
        (-5, 0, -3, 1, 1, 0, 0),
        (10_000_000, -1, 0, 0, 0, 1, 0),
        (10_000_000, -1_000_000_000, 0, 0, 1, 0, 0),
        (-10_000_000, 1_000_000_000, 0, 0, 0, 0, 1),
    ] {
        let s = loops(alloc, between(0, 0, w, q), between(0, 0, other_w, other_q))?;
        let found = climb_in(alloc, &mut room, &s, 20_001)?;
        match found {
            Climbed::Floor { period, low: walk } => {
                assert_eq!(rt; period, floor);
                assert!(rt; is_loop(&walk, low));
            }
            Climbed::Shut {
                low: walk,
                high: last,
            } => {
                assert_eq!(rt; floor, 0);
                assert!(rt; is_loop(&walk, low) && is_loop(&last, high));
            }
        }
    }
    Ok(())
}

fn ring(alloc: Global, nodes: u32, w: i64, q: i64, last: Arc) -> Result<System, AllocError>
    requires nodes { (1 ≤ nodes) × (nodes ≤ 124) }
    requires sizes { (unsigned_abs w ≤ 10000000) × (unsigned_abs q ≤ 1000000000) }
    requires last { (last.from ≡ nodes - 1) × (last.to ≡ 0) }
    requires last_sizes { (unsigned_abs last.w ≤ 10000000) × (unsigned_abs last.q ≤ 1000000000) }
{
    let mut arcs = Vec::new(alloc);
    for k in 0..nodes - 1 {
        arcs.push(between(k, k + 1, w, q))?;
    }
    let mut s = System::new(nodes, arcs);
    s.push(last)?;
    Ok(s)
}

// The longest ring: one that rises to its length, one that no period helps, and one at the ends of the weights.
#[test]
fn long_rings(rt: HostRuntime) -> Result<(), Fail> {
    let alloc = rt.alloc();
    let mut room = Room::new(alloc);
    let s = ring(alloc, 124, 1, 0, between(123, 0, 0, -1))?;
    let found = climb(alloc, &s, 20_001)?;
    match found {
        Climbed::Floor { period, low } => {
            assert_eq!(rt; period, 123);
            assert!(rt; has_sums(&low, 123, -1));
        }
        Climbed::Shut {
            low: _low,
            high: _high,
        } => assert!(rt; false),
    }
    let still = ring(alloc, 2, 5, 0, between(1, 0, -4, 0))?;
    let shut = climb(alloc, &still, 20_001)?;
    assert!(rt; is_shut(&shut, &[], &[0, 1]));
    let steep = ring(
        alloc,
        124,
        10_000_000,
        1_000_000_000,
        between(123, 0, 10_000_000, 1_000_000_000),
    )?;
    let walk = closed_walk_in(alloc, &mut room, &steep, 20_001)?;
    assert!(rt; has_sums(&walk, 1_240_000_000, 124_000_000_000));
    Ok(())
}

#[test]
fn refuting(rt: HostRuntime) {
    for (w, q, period, want) in [
        (8, -1, 7, true),
        (8, -1, 8, false),
        (0, 0, 1, false),
        (1, 0, 20_001, true),
        (10_000_000_000_000, 10_000_000_000_000, 20_001, true),
        (-10_000_000_000_000, -10_000_000_000_000, 20_001, false),
        (10_000_000_000_000, -10_000_000_000_000, 1, false),
    ] {
        let sums = Sums { w, q };
        assert_eq!(rt; sums.refutes(period), want);
    }
}

ghost use Rattle.std.specs.Prelude.{◌≡◌, ℕ, ◌≤◌, ◌<◌, IfOk, unsigned_abs};
ghost use Rattle.longest_path.specs.System.{IsReached};

use longest_path::{Arc, LeastTicks, Room, System, least, least_in};
use std::alloc::{AllocError, Global};
use std::test::Fail;

fn between(from: u32, to: u32, w: i64, q: i64) -> Arc
    ensures { result ≡ record { from = from; to = to; w = w; q = q } }
{
    Arc { from, to, w, q }
}

// Two nodes with a bath between them that holds for 5 to 10 ticks.
#[tactic(auto, using(crate::proofs::ChainLemmas::reached_two))]
fn one_bath(alloc: Global) -> Result<System, AllocError>
    ensures nodes { IfOk result (λ s. s.nodes ≡ 2) }
    ensures reached { IfOk result (λ s. (i : ℕ) → i < s.nodes → IsReached s i) }
{
    let arcs = vec![in alloc;
        between(0, 1, 10, 0),
        between(1, 0, -15, 0),
        between(0, 0, 1, -1),
        between(1, 0, -3, -1),
        between(1, 1, 1, -1),
        between(0, 0, 8, -1),
        between(1, 1, 8, -1),
    ]?;
    let s = System::new(2, arcs);
    Ok(s)
}

fn chain(alloc: Global, nodes: u32, w: i64, q: i64) -> Result<System, AllocError>
    requires nodes { (1 ≤ nodes) × (nodes ≤ 124) }
    requires sizes { (unsigned_abs w ≤ 10000000) × (unsigned_abs q ≤ 1000000000) }
    ensures reached { IfOk result (λ s. (i : ℕ) → i < s.nodes → IsReached s i) }
{
    let mut arcs = Vec::new(alloc);
    for k in 0..nodes - 1 {
        arcs.push(between(k, k + 1, w, q))?;
    }
    let s = System::new(nodes, arcs);
    Ok(s)
}

#[test]
fn least_of_one_bath(rt: HostRuntime) -> Result<(), Fail> {
    let alloc = rt.alloc();
    let s = one_bath(alloc)?;
    for period in [1, 7] {
        let answer = least(alloc, &s, period)?;
        assert!(rt; matches!(answer, LeastTicks::Positive));
    }
    let answer = least(alloc, &s, 8)?;
    match answer {
        LeastTicks::Feasible(ticks) => assert_eq!(rt; ticks.as_slice(), [0, 10].as_slice()),
        LeastTicks::Positive => assert!(rt; false),
    }
    Ok(())
}

// The longest chain at the ends of the weights, both ways, one after another in the same room; then one node alone.
#[test]
fn least_at_the_limits(rt: HostRuntime) -> Result<(), Fail> {
    let alloc = rt.alloc();
    let mut room = Room::new(alloc);
    for (nodes, w, q, last) in [
        (124, 10_000_000, 1_000_000_000, 2_460_124_230_000_000),
        (124, -10_000_000, -1_000_000_000, -2_460_124_230_000_000),
        (1, 0, 0, 0),
    ] {
        let s = chain(alloc, nodes, w, q)?;
        let answer = least_in(alloc, &mut room, &s, 20_001)?;
        match answer {
            LeastTicks::Feasible(ticks) => {
                assert_eq!(rt; ticks.len(), nodes as usize);
                assert_eq!(rt; ticks[nodes as usize - 1], last);
            }
            LeastTicks::Positive => assert!(rt; false),
        }
    }
    Ok(())
}

#[test]
fn arcs_come_and_go(rt: HostRuntime) -> Result<(), Fail> {
    let alloc = rt.alloc();
    let mut s = System::new(1, Vec::new(alloc));
    assert!(rt; s.push(between(0, 0, 5, -1))?);
    assert!(rt; s.push(between(0, 0, 6, -1))?);
    let copy = s.copied(alloc)?;
    assert!(rt; s.set(0, between(0, 0, 7, -1)));
    s.truncate(1);
    assert_eq!(rt; s.nodes(), 1);
    assert_eq!(rt; s.arcs().len(), 1);
    assert_eq!(rt; s.arcs()[0].w, 7);
    assert_eq!(rt; copy.arcs().len(), 2);
    assert_eq!(rt; copy.arcs()[1].weight(4), 2);
    Ok(())
}

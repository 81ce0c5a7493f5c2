// What sums of walks say of the period.
use cycle_walk::Sums;
use std::test::Fail;
use walk_words::{Periods, periods_of, sums_words};

const LEAST: &[u8] = b"the walk takes 621 ticks in 2 periods, so the period is at least 311";

const ONE: &[u8] = b"the walk takes 310 ticks in 1 period, so the period is at least 310";

const MOST: &[u8] = b"the walk takes -10 ticks in -3 periods, so the period is at most 3";

#[test]
fn periods_that_sums_leave(rt: HostRuntime) -> Result<(), Fail> {
    let rows = [
        (620, -2, Periods::Least(310)),
        (621, -2, Periods::Least(311)),
        (0, -1, Periods::Least(0)),
        (-5, -1, Periods::All),
        (0, 0, Periods::All),
        (1, 0, Periods::Nothing),
        (7, 3, Periods::Nothing),
        (-10, 3, Periods::Most(3)),
    ];
    for (w, q, left) in rows {
        assert!(rt; periods_of(Sums { w, q }) == left);
    }
    Ok(())
}

#[test]
fn sums_in_words(rt: HostRuntime) -> Result<(), Fail> {
    let least = sums_words(rt.alloc(), Sums { w: 621, q: -2 })?;
    assert!(rt; least.as_slice() == LEAST);
    let one = sums_words(rt.alloc(), Sums { w: 310, q: -1 })?;
    assert!(rt; one.as_slice() == ONE);
    let most = sums_words(rt.alloc(), Sums { w: -10, q: 3 })?;
    assert!(rt; most.as_slice() == MOST);
    Ok(())
}

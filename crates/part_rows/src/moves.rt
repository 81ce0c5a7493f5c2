// Motions of the worked lines.
use hoist_base::MoveId;
use move_list::{Motion, duration, motion_of, place, reaches, reaches_place};
use std::test::Fail;
use worked_lines::{thirteen_stages, two_hoists};

#[test]
fn motions_of_a_line(rt: HostRuntime) -> Result<(), Fail> {
    let alloc = rt.alloc();
    let line = thirteen_stages(alloc).ok_or("no line")?;
    assert!(rt; line.single());
    let route = line.only_route(alloc)?;
    // back from pickle to rinse1
    let back = motion_of(
        &line,
        &route,
        MoveId {
            carrier: 0,
            step: 3,
        },
    );
    assert_eq!(rt;
        back,
        Motion {
            from: 12,
            to: 8,
            lift: 8,
            lower: 8
        }
    );
    assert_eq!(rt; duration(back), 20);
    for (u, at) in [(0, 12), (8, 12), (9, 11), (11, 9), (12, 8), (20, 8)] {
        assert!(rt; u <= duration(back));
        assert_eq!(rt; place(back, u), at, "after {u} ticks");
    }
    let last = motion_of(
        &line,
        &route,
        MoveId {
            carrier: 0,
            step: 11,
        },
    );
    assert_eq!(rt;
        last,
        Motion {
            from: 40,
            to: 44,
            lift: 8,
            lower: 8
        }
    );
    assert_eq!(rt; duration(last), 20);
    assert_eq!(rt; place(last, 10), 42);
    Ok(())
}

// Two hoists with a gap of 2 on a track of 6: the lower one reaches 0 to 4, the upper one 2 to 6.
#[test]
fn reach_of_two_hoists(rt: HostRuntime) -> Result<(), Fail> {
    let line = two_hoists(rt.alloc()).ok_or("no line")?;
    for at in 0..7 {
        assert_eq!(rt; reaches_place(&line, 0, at), at <= 4, "lower hoist at {at}");
        assert_eq!(rt; reaches_place(&line, 1, at), at >= 2, "upper hoist at {at}");
    }
    let up = Motion {
        from: 0,
        to: 3,
        lift: 1,
        lower: 1,
    };
    let down = Motion {
        from: 6,
        to: 3,
        lift: 1,
        lower: 1,
    };
    assert!(rt; reaches(&line, 0, up));
    assert!(rt; !reaches(&line, 1, up));
    assert!(rt; !reaches(&line, 0, down));
    assert!(rt; reaches(&line, 1, down));
    Ok(())
}

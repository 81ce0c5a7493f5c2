// Batches of two lines at once; the texts of batches are tried on the linked program.
ghost use Rattle.std.specs.Prelude.{◌≡◌, length};

use crate::meeting::{Meeting, TRIES};
use batch_lines::batch;
use hoist_base::Line;
use std::alloc::Global;
use std::test::Fail;
use std::thread::Threads;
use worked_lines::{Numbers, Row, line_of_rows, two_stations};

// The line of one bath with no period above 20.
fn short_bath(alloc: Global) -> Option<Line> {
    let numbers = Numbers {
        track: 6,
        gap: 2,
        hoists: 1,
        degree: 1,
        max_period: 20,
        load: 0,
        unload: 0,
    };
    let tanks = [("load", 0), ("bath", 3), ("out", 6)];
    let load = Row {
        tanks: &[0],
        min: 0,
        max: None,
        lift: 1,
        lower: 0,
    };
    let bath = Row {
        tanks: &[1],
        min: 5,
        max: Some(10),
        lift: 1,
        lower: 1,
    };
    let out = Row {
        tanks: &[2],
        min: 0,
        max: None,
        lift: 0,
        lower: 1,
    };
    line_of_rows(alloc, numbers, &tanks, &[load, bath, out])
}

// The statuses of two lines that two workers solve, and whether the gate saw both at once.
fn met<R: Threads + Sync>(rt: &R, alloc: Global, lines: &[Line]) -> Result<bool, Fail>
    requires { length lines.now ≡ 2 }
{
    let gate = Meeting::new();
    let singles = batch(rt, alloc, lines, 400, 2, &gate)?;
    match singles.as_slice() {
        [first, second] if first.status == 0 && second.status == 1 => Ok(gate.saw_both()),
        _ => Err("other statuses".into()),
    }
}

#[test]
fn batch_at_once(rt: HostRuntime) -> Result<(), Fail> {
    let alloc = rt.alloc();
    let first = two_stations(alloc).ok_or("no line")?;
    let second = short_bath(alloc).ok_or("no line")?;
    let lines = [first, second];
    let mut seen = false;
    for _try in 0..TRIES {
        seen = met(&rt, alloc, &lines)?;
        if seen {
            break;
        }
    }
    assert!(rt; seen, "line 1 goes through the gate while line 0 is held");
    Ok(())
}

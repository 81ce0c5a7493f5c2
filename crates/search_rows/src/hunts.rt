// Hunts on the worked lines. The periods are the least ones by another program.
use hoist_base::Line;
use std::alloc::{AllocError, Global};
use std::test::Fail;
use timetable_hunt::Hunt;
use worked_lines::{
    far_tank, one_bath, one_station, rinse_twice, slow_choice, thirteen_stages, two_baths,
    two_hoists, two_stations,
};

// The period of the best that a hunt finds; 0 where it finds none.
fn hunted(alloc: Global, line: &Line, degree: u32) -> Result<u32, AllocError> {
    if degree < 1 || degree > 4 {
        return Ok(0);
    }
    let line = line.of_degree(alloc, degree)?;
    let mut hunt = Hunt::new(alloc, &line, 1, 0)?;
    hunt.turn(400_000)?;
    match hunt.best() {
        Some(found) => Ok(found.period),
        None => Ok(0),
    }
}

#[test]
fn least_periods(rt: HostRuntime) -> Result<(), Fail> {
    let alloc = rt.alloc();
    for (line, degree, period) in [
        (two_stations(alloc), 1, 10),
        (one_bath(alloc), 1, 21),
        (two_hoists(alloc), 1, 9),
        (rinse_twice(alloc), 1, 19),
        (one_station(alloc), 1, 19),
        (far_tank(alloc), 1, 9),
        (two_baths(alloc), 2, 36),
        (thirteen_stages(alloc), 1, 620),
        (thirteen_stages(alloc), 2, 1_240),
        (slow_choice(alloc), 1, 0),
    ] {
        let line = line.ok_or("no line")?;
        assert_eq!(rt; hunted(alloc, &line, degree)?, period);
    }
    Ok(())
}

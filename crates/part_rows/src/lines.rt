use hoist_base::{Line, Stage, Tank};
use std::test::Fail;
use worked_lines::{
    Numbers, Row, far_tank, line_of_rows, one_bath, one_station, rinse_twice, slow_choice,
    thirteen_stages, two_baths, two_hoists, two_stations,
};

/// A sum of numbers, each times its place in their list, counted from 1.
#[derive(Clone, Copy)]
struct Weighed {
    place: u32,
    sum: u32,
}

impl Weighed {
    const NONE: Weighed = Weighed { place: 0, sum: 0 };

    fn plus(self, number: u32) -> Weighed {
        let place = self.place.wrapping_add(1);
        let sum = self.sum.wrapping_add(place.wrapping_mul(number));
        Weighed { place, sum }
    }
}

/// The numbers of some tanks, counted from 1, each times its place.
fn sum_of(numbers: &[u32]) -> u32 {
    let mut weighed = Weighed::NONE;
    for number in numbers {
        weighed = weighed.plus(number.wrapping_add(1));
    }
    weighed.sum
}

fn bytes_of(name: &[u8]) -> u32 {
    let mut sum = 0u32;
    for byte in name {
        sum = sum.wrapping_add(u32::from(*byte));
    }
    sum
}

/// Positions and names of the tanks, each the sum over the tanks, times their places.
fn sums_of_tanks(tanks: &[Tank]) -> [u32; 2] {
    let mut positions = Weighed::NONE;
    let mut names = Weighed::NONE;
    for tank in tanks {
        positions = positions.plus(tank.at);
        names = names.plus(bytes_of(tank.name.as_slice()));
    }
    [positions.sum, names.sum]
}

/// Tanks, least and greatest dwells, lifts and lowers of the stages, each the sum over the stages, times their places.
fn sums_of_stages(stages: &[Stage]) -> [u32; 5] {
    let mut tanks = Weighed::NONE;
    let mut least = Weighed::NONE;
    let mut greatest = Weighed::NONE;
    let mut lifts = Weighed::NONE;
    let mut lowers = Weighed::NONE;
    for stage in stages {
        tanks = tanks.plus(sum_of(stage.tanks.as_slice()));
        least = least.plus(stage.min);
        greatest = greatest.plus(stage.max.unwrap_or(0));
        lifts = lifts.plus(stage.lift);
        lowers = lowers.plus(stage.lower);
    }
    [tanks.sum, least.sum, greatest.sum, lifts.sum, lowers.sum]
}

/// The two sums of the tanks, then the five of the stages; zeros where there is no line.
fn sums(line: Option<Line>) -> [u32; 7] {
    let Some(line) = line else {
        return [0; 7];
    };
    let [positions, names] = sums_of_tanks(line.tanks());
    let [tanks, least, greatest, lifts, lowers] = sums_of_stages(line.stages());
    [positions, names, tanks, least, greatest, lifts, lowers]
}

// The sums were reckoned from the files in lines/ by another program.
#[test]
fn worked_lines_are_those_of_the_files(rt: HostRuntime) -> Result<(), Fail> {
    let alloc = rt.alloc();
    for (line, want) in [
        (two_stations(alloc), [8, 1104, 5, 0, 0, 1, 2]),
        (one_bath(alloc), [24, 2278, 14, 10, 20, 3, 5]),
        (two_hoists(alloc), [24, 2278, 14, 10, 20, 3, 5]),
        (rinse_twice(alloc), [20, 2356, 42, 9, 0, 10, 14]),
        (one_station(alloc), [6, 1061, 8, 10, 20, 3, 5]),
        (
            thirteen_stages(alloc),
            [2288, 36747, 733, 7945, 4530, 624, 720],
        ),
        (far_tank(alloc), [44, 3530, 26, 10, 20, 3, 5]),
        (two_baths(alloc), [40, 2280, 29, 40, 120, 3, 5]),
        (slow_choice(alloc), [44, 2670, 30, 100, 0, 3, 5]),
    ] {
        assert_eq!(rt; sums(line), want);
    }
    Ok(())
}

#[test]
fn broken_rows_make_no_line(rt: HostRuntime) -> Result<(), Fail> {
    let alloc = rt.alloc();
    let numbers = Numbers {
        track: 6,
        gap: 6,
        hoists: 2,
        degree: 1,
        max_period: 100,
        load: 0,
        unload: 0,
    };
    let tight = Numbers { gap: 7, ..numbers };
    let load = Row {
        tanks: &[0],
        min: 0,
        max: None,
        lift: 1,
        lower: 0,
    };
    let out = Row {
        tanks: &[1],
        lift: 0,
        lower: 1,
        ..load
    };
    let back = Row { tanks: &[0], ..out };
    let far = Row { tanks: &[2], ..out };
    let right = [("load", 0), ("out", 6)];
    for (numbers, tanks, rows, is_line) in [
        (numbers, right, [load, out], true),
        (tight, right, [load, out], false),
        (numbers, right, [load, back], false),
        (numbers, right, [load, far], false),
        (numbers, right, [out, load], false),
        (numbers, [("load", 0), ("out", 0)], [load, out], false),
        (numbers, [("out", 0), ("out", 6)], [load, out], false),
        (numbers, [("load", 0), ("out", 7)], [load, out], false),
        (numbers, [("load", 0), ("o t", 6)], [load, out], false),
    ] {
        assert_eq!(rt;
            line_of_rows(alloc, numbers, &tanks, &rows).is_some(),
            is_line
        );
    }
    Ok(())
}

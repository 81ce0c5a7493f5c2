// The worked lines.
ghost use Rattle.std.specs.Prelude.{IfSome};
ghost use Rattle.worked_lines.specs.Sizes.{HasSizes};
ghost use Rattle.worked_lines.specs.WorkedNumbers.{
  two_stations_numbers,
  one_bath_numbers,
  two_hoists_numbers,
  rinse_twice_numbers,
  one_station_numbers,
  thirteen_stages_numbers,
  far_tank_numbers,
  two_baths_numbers,
  slow_choice_numbers,
};

use crate::build::{Numbers, inner, line_of_rows, load, unload};
use hoist_base::Line;
use std::alloc::Global;

/// From load to out, one hoist.
pub fn two_stations(alloc: Global) -> Option<Line>
    ensures { IfSome result (λ line. HasSizes line two_stations_numbers 2 2) }
{
    let numbers = Numbers {
        track: 4,
        gap: 1,
        hoists: 1,
        degree: 1,
        max_period: 100,
        load: 2,
        unload: 2,
    };
    let tanks = [("load", 0), ("out", 4)];
    let rows = [load(&[0], 1), unload(&[1], 1)];
    line_of_rows(alloc, numbers, &tanks, &rows)
}

/// One bath, one hoist.
pub fn one_bath(alloc: Global) -> Option<Line>
    ensures { IfSome result (λ line. HasSizes line one_bath_numbers 3 3) }
{
    let numbers = Numbers {
        track: 6,
        gap: 2,
        hoists: 1,
        degree: 1,
        max_period: 100,
        load: 0,
        unload: 0,
    };
    let tanks = [("load", 0), ("bath", 3), ("out", 6)];
    let rows = [
        load(&[0], 1),
        inner(&[1], 5, Some(10), 1, 1),
        unload(&[2], 1),
    ];
    line_of_rows(alloc, numbers, &tanks, &rows)
}

/// One bath, two hoists.
pub fn two_hoists(alloc: Global) -> Option<Line>
    ensures { IfSome result (λ line. HasSizes line two_hoists_numbers 3 3) }
{
    let numbers = Numbers {
        track: 6,
        gap: 2,
        hoists: 2,
        degree: 1,
        max_period: 100,
        load: 0,
        unload: 0,
    };
    let tanks = [("load", 0), ("bath", 3), ("out", 6)];
    let rows = [
        load(&[0], 1),
        inner(&[1], 5, Some(10), 1, 1),
        unload(&[2], 1),
    ];
    line_of_rows(alloc, numbers, &tanks, &rows)
}

/// A rinse that each carrier visits twice.
pub fn rinse_twice(alloc: Global) -> Option<Line>
    ensures { IfSome result (λ line. HasSizes line rinse_twice_numbers 4 5) }
{
    let numbers = Numbers {
        track: 3,
        gap: 1,
        hoists: 1,
        degree: 1,
        max_period: 100,
        load: 0,
        unload: 0,
    };
    let tanks = [("load", 0), ("r", 1), ("p", 2), ("out", 3)];
    let rows = [
        load(&[0], 1),
        inner(&[1], 1, None, 1, 1),
        inner(&[2], 1, None, 1, 1),
        inner(&[1], 1, None, 1, 1),
        unload(&[3], 1),
    ];
    line_of_rows(alloc, numbers, &tanks, &rows)
}

/// One station that loads and unloads.
pub fn one_station(alloc: Global) -> Option<Line>
    ensures { IfSome result (λ line. HasSizes line one_station_numbers 2 3) }
{
    let numbers = Numbers {
        track: 3,
        gap: 1,
        hoists: 1,
        degree: 1,
        max_period: 100,
        load: 2,
        unload: 2,
    };
    let tanks = [("st", 0), ("bath", 3)];
    let rows = [
        load(&[0], 1),
        inner(&[1], 5, Some(10), 1, 1),
        unload(&[0], 1),
    ];
    line_of_rows(alloc, numbers, &tanks, &rows)
}

/// A line of thirteen stages with two hoists, in seconds.
pub fn thirteen_stages(alloc: Global) -> Option<Line>
    ensures { IfSome result (λ line. HasSizes line thirteen_stages_numbers 12 13) }
{
    let numbers = Numbers {
        track: 44,
        gap: 4,
        hoists: 2,
        degree: 1,
        max_period: 3000,
        load: 60,
        unload: 30,
    };
    let tanks = [
        ("load", 0),
        ("clean", 4),
        ("rinse1", 8),
        ("pickle", 12),
        ("strike", 16),
        ("rinse2", 20),
        ("plate", 24),
        ("drag", 28),
        ("passiv", 32),
        ("hot", 36),
        ("dry", 40),
        ("out", 44),
    ];
    let rows = [
        load(&[0], 8),
        inner(&[1], 120, Some(240), 8, 8),
        inner(&[2], 20, Some(60), 8, 8),
        inner(&[3], 60, Some(120), 8, 8),
        inner(&[2], 20, Some(60), 8, 8),
        inner(&[4], 45, Some(90), 8, 8),
        inner(&[5], 20, Some(60), 8, 8),
        inner(&[6], 600, None, 8, 8),
        inner(&[7], 15, Some(60), 8, 8),
        inner(&[8], 30, Some(60), 8, 8),
        inner(&[9], 20, Some(90), 8, 8),
        inner(&[10], 120, None, 8, 8),
        unload(&[11], 8),
    ];
    line_of_rows(alloc, numbers, &tanks, &rows)
}

/// A stage with two tanks, one of which no hoist reaches from the load.
pub fn far_tank(alloc: Global) -> Option<Line>
    ensures { IfSome result (λ line. HasSizes line far_tank_numbers 4 3) }
{
    let numbers = Numbers {
        track: 6,
        gap: 2,
        hoists: 2,
        degree: 1,
        max_period: 100,
        load: 0,
        unload: 0,
    };
    let tanks = [("load", 0), ("bath", 3), ("out", 6), ("far", 5)];
    let rows = [
        load(&[0], 1),
        inner(&[3, 1], 5, Some(10), 1, 1),
        unload(&[2], 1),
    ];
    line_of_rows(alloc, numbers, &tanks, &rows)
}

/// Two carriers a period over two like baths.
pub fn two_baths(alloc: Global) -> Option<Line>
    ensures { IfSome result (λ line. HasSizes line two_baths_numbers 4 3) }
{
    let numbers = Numbers {
        track: 6,
        gap: 1,
        hoists: 1,
        degree: 2,
        max_period: 100,
        load: 0,
        unload: 0,
    };
    let tanks = [("load", 0), ("a", 2), ("b", 4), ("out", 6)];
    let rows = [
        load(&[0], 1),
        inner(&[1, 2], 20, Some(60), 1, 1),
        unload(&[3], 1),
    ];
    line_of_rows(alloc, numbers, &tanks, &rows)
}

/// A long dwell in either of two tanks.
pub fn slow_choice(alloc: Global) -> Option<Line>
    ensures { IfSome result (λ line. HasSizes line slow_choice_numbers 4 3) }
{
    let numbers = Numbers {
        track: 6,
        gap: 2,
        hoists: 1,
        degree: 1,
        max_period: 50,
        load: 0,
        unload: 0,
    };
    let tanks = [("load", 0), ("bath", 3), ("out", 6), ("b", 5)];
    let rows = [
        load(&[0], 1),
        inner(&[1, 3], 50, None, 1, 1),
        unload(&[2], 1),
    ];
    line_of_rows(alloc, numbers, &tanks, &rows)
}

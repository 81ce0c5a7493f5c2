// Charts and dwell tables of small lines: that of two stations is given, the others come from a script that reads the
// rows of the chart off the numbers of the timetable, each move at every period.
ghost use Rattle.line_model.specs.Legal.{IsLegal};
ghost use Rattle.timetable.specs.TimetableData.{timetable_of, FitsLine};

use crate::written::{FAR_TANK, ONE_STATION, TURNED, TWICE, TWO_STATIONS, Written, legal_of};
use gantt_report::{chart, dwell_table};
use hoist_base::Line;
use std::alloc::{AllocError, Global};
use std::test::Fail;
use timetable::Timetable;
use worked_lines::{Numbers, Row, far_tank, line_of_rows, one_bath, one_station, two_stations};

// The chart and the dwell table of a line, one behind the other.
fn drawn(alloc: Global, line: &Line, w: &Written) -> Result<Vec<u8>, &'static str> {
    let t = legal_of(alloc, line, w)?;
    match texts(alloc, line, &t) {
        Ok(text) => Ok(text),
        Err(_) => Err("no memory"),
    }
}

fn texts(alloc: Global, line: &Line, t: &Timetable) -> Result<Vec<u8>, AllocError>
    requires fits { FitsLine line.now t.now }
    requires legal { IsLegal line.now (timetable_of t.now) }
{
    let mut text = chart(alloc, line, t)?;
    let table = dwell_table(alloc, line, t)?;
    text.extend_from_slice(table.as_slice())?;
    Ok(text)
}

// Whether the last lines of a text are these.
fn ends_so(text: &[u8], last: &str) -> bool {
    text.ends_with(last.as_bytes())
}

const SIX: Written<'static> = Written {
    period: 10,
    put: &[0],
    off: &[10],
    start: &[2],
    hoist: &[5],
    path: &[
        0, 0, 0, 0, 0, 0, 0, 0, 0, 0, 1, 1, 1, 1, 1, 1, 1, 1, 1, 1, 2, 2, 2, 2, 2, 2, 2, 2, 2, 2,
        3, 3, 3, 3, 3, 3, 3, 3, 3, 3, 4, 4, 4, 4, 4, 4, 4, 4, 4, 4, 7, 6, 5, 5, 6, 7, 8, 9, 9, 8,
    ],
    tank: &[0, 1],
};

const OPEN: Written<'static> = Written {
    period: 30,
    put: &[0],
    off: &[28],
    start: &[8, 23],
    hoist: &[0, 0],
    path: &[
        4, 3, 2, 1, 0, 0, 0, 0, 0, 0, 1, 2, 3, 3, 3, 3, 3, 3, 3, 3, 3, 3, 3, 3, 3, 4, 5, 6, 6, 5,
    ],
    tank: &[0, 1, 2],
};

const TWO_STATIONS_TEXT: &str = "period 10
    0 |. 0 .|
    1 |.0  .|
    2 |A   .|
    3 |A   .|
    4 |.A  .|
    5 |. A .|
    6 |.  A.|
    7 |.   A|
    8 |.   0|
    9 |.  0.|
dwell
   0   0      2      2      - load
   0   1      2      2      - out
";

const TURNED_TEXT: &str = "period 10
    0 |. A .|
    1 |.  A.|
    2 |.   A|
    3 |.   0|
    4 |.  0.|
    5 |. 0 .|
    6 |.0  .|
    7 |A   .|
    8 |A   .|
    9 |.A  .|
dwell
   0   0      2      2      - load
   0   1      2      2      - out
";

const FAR_TANK_TEXT: &str = "period 9
    0 |A  1 ..|
    1 |A  B ..|
    2 |.A B ..|
    3 |. A.B..|
    4 |.  A B.|
    5 |.  0 .B|
    6 |. 0. .1|
    7 |.0 . 1.|
    8 |0  .1..|
dwell
   0   0      0      0      - load
   0   1      5      5     10 bath
   0   2      0      0      - out
";

const SIX_TEXT: &str = "period 10
    0 |01234. 5 .|
    1 |01234.5  .|
    2 |01234F   .|
    3 |01234F   .|
    4 |01234.F  .|
    5 |01234. F .|
    6 |01234.  F.|
    7 |01234.   F|
    8 |01234.   5|
    9 |01234.  5.|
dwell
   0   0      2      2      - load
   0   1      2      2      - out
";

const ONE_STATION_TEXT: &str = "   15 |.A .|
   16 |A  .|
   17 |0  .|
   18 |0  .|
dwell
   0   0      2      2      - st
   0   1      5      5     10 bath
   0   2      2      2      - st
";

const OPEN_TEXT: &str = "   27 |.  .  A|
   28 |.  .  0|
   29 |.  . 0.|
dwell
   0   0      8      0      - load
   0   1     10      5      - bath
   0   2      0      0      - out
";

const TWICE_TEXT: &str = "   39 |.  0  .|
   40 |. 0.  .|
   41 |.0 .  .|
dwell
   0   0      0      0      - load
   0   1      5      5     10 bath
   0   2      0      0      - out
   1   0      0      0      - load
   1   1      5      5     10 bath
   1   2      0      0      - out
";

// Six hoists: the highest carries, and the lowest stands over a tank that no stage uses.
fn six_hoists(alloc: Global) -> Option<Line> {
    let numbers = Numbers {
        track: 9,
        gap: 1,
        hoists: 6,
        degree: 1,
        max_period: 100,
        load: 2,
        unload: 2,
    };
    let rows = [row(&[0], 0, 1, 0), row(&[1], 0, 0, 1)];
    line_of_rows(
        alloc,
        numbers,
        &[("load", 5), ("out", 9), ("spare", 0)],
        &rows,
    )
}

// One bath without a greatest dwell.
fn open_bath(alloc: Global) -> Option<Line> {
    let numbers = Numbers {
        track: 6,
        gap: 2,
        hoists: 1,
        degree: 1,
        max_period: 100,
        load: 0,
        unload: 0,
    };
    let rows = [row(&[0], 0, 1, 0), row(&[1], 5, 1, 1), row(&[2], 0, 0, 1)];
    line_of_rows(
        alloc,
        numbers,
        &[("load", 0), ("bath", 3), ("out", 6)],
        &rows,
    )
}

fn row(tanks: &[u32], min: u32, lift: u32, lower: u32) -> Row {
    Row {
        tanks,
        min,
        max: None,
        lift,
        lower,
    }
}

#[test]
fn one_hoist(rt: HostRuntime) -> Result<(), Fail> {
    let alloc = rt.alloc();
    let stations = two_stations(alloc).ok_or("no line")?;
    let text = drawn(alloc, &stations, &TWO_STATIONS)?;
    assert!(rt; text.as_slice() == TWO_STATIONS_TEXT.as_bytes());
    // it carries on over the end of the period
    let text = drawn(alloc, &stations, &TURNED)?;
    assert!(rt; text.as_slice() == TURNED_TEXT.as_bytes());
    Ok(())
}

#[test]
fn several_hoists(rt: HostRuntime) -> Result<(), Fail> {
    let alloc = rt.alloc();
    let far = far_tank(alloc).ok_or("no line")?;
    let text = drawn(alloc, &far, &FAR_TANK)?;
    assert!(rt; text.as_slice() == FAR_TANK_TEXT.as_bytes());
    let six = six_hoists(alloc).ok_or("no line")?;
    let text = drawn(alloc, &six, &SIX)?;
    assert!(rt; text.as_slice() == SIX_TEXT.as_bytes());
    Ok(())
}

#[test]
fn dwells(rt: HostRuntime) -> Result<(), Fail> {
    let alloc = rt.alloc();
    // load and unload are one tank
    let station = one_station(alloc).ok_or("no line")?;
    let text = drawn(alloc, &station, &ONE_STATION)?;
    assert!(rt; ends_so(text.as_slice(), ONE_STATION_TEXT));
    // no greatest dwell, and a long stay at the load
    let open = open_bath(alloc).ok_or("no line")?;
    let text = drawn(alloc, &open, &OPEN)?;
    assert!(rt; ends_so(text.as_slice(), OPEN_TEXT));
    // two carriers in a period
    let bath = one_bath(alloc).ok_or("no line")?;
    let twice = bath.of_degree(alloc, 2)?;
    let text = drawn(alloc, &twice, &TWICE)?;
    assert!(rt; ends_so(text.as_slice(), TWICE_TEXT));
    Ok(())
}

// Runs of small lines: those of two stations are given, the others come from a script that lists the ticks of each
// carrier and sorts them.
ghost use Rattle.std.specs.Prelude.{◌≤◌};

use crate::written::{FAR_TANK, ONE_STATION, TURNED, TWICE, TWO_STATIONS, Written, legal_of};
use hoist_base::Line;
use run_text::run_text;
use std::alloc::{AllocError, Global};
use std::test::Fail;
use worked_lines::{far_tank, one_bath, one_station, two_stations};

// The text of the run of so many carriers.
fn text_of(alloc: Global, line: &Line, w: &Written, carriers: u64) -> Result<Vec<u8>, &'static str>
    requires { (1 ≤ carriers) × (carriers ≤ 1000) }
{
    let t = legal_of(alloc, line, w)?;
    match run_text(alloc, line, &t, carriers) {
        Ok(text) => Ok(text),
        Err(_) => Err("no memory"),
    }
}

const TWO_STATIONS_TEXT: &str = "run 2
from 0 to 20
0 put 0
2 begin 0 0 hoist 0
8 set 0 1
10 off 0
10 put 1
12 begin 1 0 hoist 0
18 set 1 1
20 off 1
empty
";

const TURNED_TEXT: &str = "run 1
from 5 to 15
5 put 0
7 begin 0 0 hoist 0
13 set 0 1
15 off 0
empty
";

const FAR_TANK_TEXT: &str = "run 2
from 0 to 24
0 put 0
0 begin 0 0 hoist 0
5 set 0 1
9 put 1
9 begin 1 0 hoist 0
10 begin 0 1 hoist 1
14 set 1 1
15 set 0 2
15 off 0
19 begin 1 1 hoist 1
24 set 1 2
24 off 1
empty
";

const ONE_STATION_TEXT: &str = "run 2
from 0 to 38
0 put 0
2 begin 0 0 hoist 0
7 set 0 1
12 begin 0 1 hoist 0
17 set 0 2
19 off 0
19 put 1
21 begin 1 0 hoist 0
26 set 1 1
31 begin 1 1 hoist 0
36 set 1 2
38 off 1
empty
";

const TWICE_TEXT: &str = "run 3
from 0 to 57
0 put 0
0 begin 0 0 hoist 0
5 set 0 1
10 begin 0 1 hoist 0
15 set 0 2
15 off 0
21 put 1
21 begin 1 0 hoist 0
26 set 1 1
31 begin 1 1 hoist 0
36 set 1 2
36 off 1
42 put 2
42 begin 2 0 hoist 0
47 set 2 1
52 begin 2 1 hoist 0
57 set 2 2
57 off 2
empty
";

#[test]
fn short_runs(rt: HostRuntime) -> Result<(), Fail> {
    let alloc = rt.alloc();
    let stations = two_stations(alloc).ok_or("no line")?;
    let text = text_of(alloc, &stations, &TWO_STATIONS, 2)?;
    assert!(rt; text.as_slice() == TWO_STATIONS_TEXT.as_bytes());
    // its first tick is not 0
    let text = text_of(alloc, &stations, &TURNED, 1)?;
    assert!(rt; text.as_slice() == TURNED_TEXT.as_bytes());
    // load and unload are one tank
    let station = one_station(alloc).ok_or("no line")?;
    let text = text_of(alloc, &station, &ONE_STATION, 2)?;
    assert!(rt; text.as_slice() == ONE_STATION_TEXT.as_bytes());
    Ok(())
}

#[test]
fn runs_side_by_side(rt: HostRuntime) -> Result<(), Fail> {
    let alloc = rt.alloc();
    // two hoists, and a stage of two tanks
    let far = far_tank(alloc).ok_or("no line")?;
    let text = text_of(alloc, &far, &FAR_TANK, 2)?;
    assert!(rt; text.as_slice() == FAR_TANK_TEXT.as_bytes());
    // two carriers in a period, and a run that ends within one
    let bath = one_bath(alloc).ok_or("no line")?;
    let twice = bath.of_degree(alloc, 2)?;
    let text = text_of(alloc, &twice, &TWICE, 3)?;
    assert!(rt; text.as_slice() == TWICE_TEXT.as_bytes());
    Ok(())
}

// Each command once, over the line of two stations.
use crate::answers::TWO_STATIONS_ANSWER;
use crate::runs::{Files, run, stations_file};
use hoist_cli::Status;
use std::test::Fail;

/// Two carriers.
const RUN: &str = "\
run 2
from 0 to 20
0 put 0
2 begin 0 0 hoist 0
8 set 0 1
10 off 0
10 put 1
12 begin 1 0 hoist 0
18 set 1 1
20 off 1
empty
";

/// A period, and its dwells.
const CHART: &str = "\
period 10
    0 |. 0 .|
    1 |.0  .|
    2 |A   .|
    3 |A   .|
    4 |.A  .|
    5 |. A .|
    6 |.  A.|
    7 |.   A|
    8 |.   0|
    9 |.  0.|
dwell
   0   0      2      2      - load
   0   1      2      2      - out
";

const SWEPT: &str = "\
sweep 2
degree 1 verdict optimal bound 10 splits 0 period 10
degree 2 verdict optimal bound 20 splits 2 period 20
best degree 1 period 10
settled yes
";

/// A command, the file that it reads beside the line's, the status and the text.
type Row = (&'static str, &'static str, Status, &'static str);

const ROWS: [Row; 11] = [
    ("hoist solve line", "", Status::Done, TWO_STATIONS_ANSWER),
    (
        "hoist check line answer",
        TWO_STATIONS_ANSWER,
        Status::Done,
        "accepted optimal 10\n",
    ),
    (
        "hoist check line answer",
        "",
        Status::Broken,
        "answer broken at byte 0\n",
    ),
    (
        "hoist run line answer --carriers 2",
        TWO_STATIONS_ANSWER,
        Status::Done,
        RUN,
    ),
    (
        "hoist chart line answer",
        TWO_STATIONS_ANSWER,
        Status::Done,
        CHART,
    ),
    (
        "hoist margin line answer",
        TWO_STATIONS_ANSWER,
        Status::Done,
        "margin none\n",
    ),
    ("hoist sweep line --upto 2", "", Status::Done, SWEPT),
    (
        "hoist follow line answer",
        "hoist log 1\nat 1\ns put\nl begin 0 1\nend\n",
        Status::Negative,
        "departs 1 early carrier 0 stage 0 age 1 bound 2\n",
    ),
    (
        "hoist batch answer",
        "line",
        Status::Broken,
        "list broken at byte 4\n",
    ),
    (
        "hoist_prove",
        "",
        Status::Words,
        "usage: hoist_prove FILE [--nodes N]\n",
    ),
    (
        "hoist_prove answer",
        "",
        Status::Line,
        "line refused: missing version\n",
    ),
];

#[test]
fn commands_print_these_texts(rt: HostRuntime) -> Result<(), Fail> {
    let alloc = rt.alloc();
    let file = stations_file(alloc)?;
    for i in 0..ROWS.len() {
        let (command, other, status, text) = ROWS[i];
        let files = Files {
            line: file.as_slice(),
            answer: other.as_bytes(),
        };
        let seen = run(&rt, alloc, command, files)?;
        assert_eq!(rt; seen.text.as_slice(), text.as_bytes(), "{command}");
        assert_eq!(rt; seen.status, status, "{command}");
    }
    Ok(())
}

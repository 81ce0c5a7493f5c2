// The document of JSON, read back.
use crate::answers::TWO_HOISTS_ANSWER;
use crate::reports::runs::run;
use hoist_cli::Status;
use serde_json::Value;
use std::test::Fail;

/// The document of the answer to the line of two hoists, written by hand in another order of members.
const DOCUMENT: &str = r#"
{
    "version": 1,
    "verdict": "optimal",
    "bound": 9,
    "period": 9,
    "line": {
        "track": 6, "gap": 2, "hoists": 2, "degree": 1, "max_period": 100, "load": 0, "unload": 0,
        "tanks": [{"name": "load", "at": 0}, {"name": "bath", "at": 3}, {"name": "out", "at": 6}],
        "stages": [
            {"tanks": [0], "min": 0, "max": null, "lift": 1, "lower": 0},
            {"tanks": [1], "min": 5, "max": 10, "lift": 1, "lower": 1},
            {"tanks": [2], "min": 0, "max": null, "lift": 0, "lower": 1}
        ]
    },
    "carriers": [
        {
            "carrier": 0, "put": 0, "off": 15,
            "stays": [
                {"stage": 0, "tank": 0, "begin": 0, "end": 0, "dwell": 0, "min": 0, "max": null},
                {"stage": 1, "tank": 1, "begin": 5, "end": 10, "dwell": 5, "min": 5, "max": 10},
                {"stage": 2, "tank": 2, "begin": 15, "end": 15, "dwell": 0, "min": 0, "max": null}
            ]
        }
    ],
    "moves": [
        {"carrier": 0, "step": 0, "hoist": 0, "start": 0, "end": 5},
        {"carrier": 0, "step": 1, "hoist": 1, "start": 10, "end": 15}
    ],
    "hoists": [
        {"hoist": 0, "positions": [0, 0, 1, 2, 3, 3, 2, 1, 0]},
        {"hoist": 1, "positions": [3, 3, 3, 4, 5, 6, 6, 5, 4]}
    ]
}
"#;

#[test]
fn the_document_has_the_timetable(rt: HostRuntime) -> Result<(), Fail> {
    let alloc = rt.alloc();
    let seen = run(
        &rt,
        alloc,
        "hoist_report --json line answer",
        TWO_HOISTS_ANSWER,
        &[],
    )?;
    assert_eq!(rt; seen.status, Status::Done);
    let read = Value::from_slice(alloc, seen.text.as_slice())
        .ok()
        .ok_or("no document")?;
    let want = Value::from_str(alloc, DOCUMENT)
        .ok()
        .ok_or("no document by hand")?;
    assert!(rt; read == want, "{seen:?}");
    Ok(())
}

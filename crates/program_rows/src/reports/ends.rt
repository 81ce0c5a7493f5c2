// Words and files, and how the program ends over them.
use crate::answers::TWO_HOISTS_ANSWER;
use crate::reports::answers::{NO_SPLIT_ANSWER, REJECTED_ANSWER};
use crate::reports::runs::{run, run_with_write_fault};
use hoist_cli::Status;
use std::test::Fail;

const USAGE: &str = "usage: hoist_report [--json] FILE ANSWER\n";

/// A command, the answer that it is run over, and how it ends.
const ENDS: [(&str, &str, Status, &str); 12] = [
    ("hoist_report", TWO_HOISTS_ANSWER, Status::Words, USAGE),
    ("hoist_report line", TWO_HOISTS_ANSWER, Status::Words, USAGE),
    (
        "hoist_report line answer answer",
        TWO_HOISTS_ANSWER,
        Status::Words,
        USAGE,
    ),
    (
        "hoist_report --html line answer",
        TWO_HOISTS_ANSWER,
        Status::Words,
        USAGE,
    ),
    (
        "hoist_report --json --json line answer",
        TWO_HOISTS_ANSWER,
        Status::Words,
        USAGE,
    ),
    (
        "hoist_report answer line",
        TWO_HOISTS_ANSWER,
        Status::Line,
        "line refused: not toml\n",
    ),
    (
        "hoist_report line line",
        TWO_HOISTS_ANSWER,
        Status::Broken,
        "answer broken at byte 0\n",
    ),
    (
        "hoist_report --json line answer",
        "hoist answer 1\nverdict open\n",
        Status::Broken,
        "answer broken at byte 28\n",
    ),
    (
        "hoist_report line answer",
        REJECTED_ANSWER,
        Status::Negative,
        "rejected: bound 10 9\n",
    ),
    (
        "hoist_report line answer --json",
        REJECTED_ANSWER,
        Status::Negative,
        "rejected: bound 10 9\n",
    ),
    (
        "hoist_report line answer",
        NO_SPLIT_ANSWER,
        Status::Negative,
        "no timetable to draw: accepted open 1\n",
    ),
    (
        "hoist_report --json line answer",
        NO_SPLIT_ANSWER,
        Status::Negative,
        "no timetable to draw: accepted open 1\n",
    ),
];

#[test]
fn what_is_not_drawn_is_said(rt: HostRuntime) -> Result<(), Fail> {
    let alloc = rt.alloc();
    for i in 0..ENDS.len() {
        let (command, answer, status, text) = ENDS[i];
        let seen = run(&rt, alloc, command, answer, &[])?;
        assert_eq!(rt; seen.text.as_slice(), text.as_bytes(), "row {i}");
        assert_eq!(rt; seen.status, status, "row {i}");
    }
    Ok(())
}

#[test]
fn a_fault_has_its_status(rt: HostRuntime) -> Result<(), Fail> {
    let alloc = rt.alloc();
    let command = "hoist_report line answer";
    let names = ["line", "answer"];
    for i in 0..2 {
        let seen = run(&rt, alloc, command, TWO_HOISTS_ANSWER, &[i as u64])?;
        let rest = seen.text.as_slice().strip_prefix(b"read fault: ");
        assert!(rt;
            rest.is_some_and(|rest| rest.starts_with(names[i].as_bytes())),
            "read {i}"
        );
        assert_eq!(rt; seen.status, Status::Read, "read {i}");
    }
    let seen = run_with_write_fault(&rt, alloc, command, TWO_HOISTS_ANSWER)?;
    assert_eq!(rt; seen.text.as_slice(), b"<!DOCTYPE html>".as_slice());
    assert_eq!(rt; seen.status, Status::Write);
    Ok(())
}

#[test]
fn an_accepted_answer_has_a_page(rt: HostRuntime) -> Result<(), Fail> {
    let alloc = rt.alloc();
    let seen = run(
        &rt,
        alloc,
        "hoist_report line answer",
        TWO_HOISTS_ANSWER,
        &[],
    )?;
    assert!(rt;
        seen.text.as_slice().starts_with(b"<!DOCTYPE html>\n<html"),
        "{seen:?}"
    );
    assert!(rt; seen.text.as_slice().ends_with(b"</html>\n"), "{seen:?}");
    assert_eq!(rt; seen.status, Status::Done);
    Ok(())
}

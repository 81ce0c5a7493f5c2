// Bytes that are proposed as an answer to the line of one bath.
use crate::answers::{
    ONE_BATH_ANSWER, ONE_BATH_OPEN_ANSWER, TWO_HOISTS_ANSWER, TWO_STATIONS_ANSWER,
};
use hoist_cli::Status;
use prove_cli::settle;
use std::alloc::Global;
use std::test::Fail;
use std::thread::Threads;
use worked_lines::one_bath;

/// How these bytes are settled, and whether they are what is printed.
fn settled<R: Threads + Sync>(rt: &R, alloc: Global, bytes: &str) -> Result<(Status, bool), Fail> {
    let line = one_bath(alloc).ok_or("no line")?;
    let reply = settle(rt, alloc, &line, Vec::from_slice(alloc, bytes.as_bytes())?)?;
    Ok((reply.status, reply.text.as_slice() == bytes.as_bytes()))
}

#[test]
fn what_is_no_proof_is_not_printed(rt: HostRuntime) -> Result<(), Fail> {
    let alloc = rt.alloc();
    let rows = [
        (ONE_BATH_ANSWER, Status::Done, true),
        (ONE_BATH_OPEN_ANSWER, Status::Unfinished, true),
        ("", Status::Unfinished, false),
        (
            "hoist answer 1\nverdict optimal\n",
            Status::Unfinished,
            false,
        ),
        (TWO_HOISTS_ANSWER, Status::Unfinished, false),
        (TWO_STATIONS_ANSWER, Status::Unfinished, false),
    ];
    for i in 0..rows.len() {
        let (bytes, status, printed) = rows[i];
        let seen = settled(&rt, alloc, bytes)?;
        assert_eq!(rt; seen, (status, printed), "row {i}");
    }
    Ok(())
}

#[test]
fn an_answer_with_another_bound_is_not_printed(rt: HostRuntime) -> Result<(), Fail> {
    let alloc = rt.alloc();
    let (head, tail) = ONE_BATH_ANSWER.split_once("bound 21").ok_or("no bound")?;
    for bound in ["bound 20", "bound 22"] {
        let other = format!(in alloc; "{head}{bound}{tail}")?;
        let seen = settled(&rt, alloc, other.as_str())?;
        assert_eq!(rt; seen, (Status::Unfinished, false), "{bound}");
    }
    Ok(())
}

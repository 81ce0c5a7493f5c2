// The head of a proposal for which no node may be expanded; heads of others are tried on the linked program.
use proof_search::propose;
use std::test::Fail;
use worked_lines::thirteen_stages;

#[test]
fn no_nodes(rt: HostRuntime) -> Result<(), Fail> {
    let alloc = rt.alloc();
    let line = thirteen_stages(alloc).ok_or("no line")?;
    let text = propose(alloc, &line, 0)?;
    assert!(rt; text.starts_with(b"hoist answer 1\nverdict open\n"));
    Ok(())
}

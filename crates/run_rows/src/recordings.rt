// Runs of worked lines that are written as logs and then followed. The lines of the logs are written by hand: a hoist
// follows its path, but stays while it carries a carrier of the run.
ghost use Rattle.std.specs.Prelude.{◌≤◌};
ghost use Rattle.hoist_base.specs.Valid.{IsLine};
ghost use Rattle.line_model.specs.Legal.{IsLegal};
ghost use Rattle.timetable.specs.TimetableData.{timetable_of, FitsLine};

use crate::written::{FAR_TANK, TURNED, TWO_STATIONS, Written, legal_of};
use hoist_base::Line;
use startup_rundown::{Runner, drive};
use std::alloc::{AllocError, Global};
use std::test::Fail;
use tick_machine::Driver;
use timetable::Timetable;
use track_log::{follow, followed_text, write_log};
use worked_lines::{far_tank, two_stations};

/// Every line keeps the rules between its parts.
fn keeps_its_rules(line: &Line)
    ensures { IsLine line.now }
{
    let _hoists = line.hoists();
}

/// The log of the run of so many carriers, where it spans at most 100,000 ticks.
fn log_of(
    alloc: Global,
    line: &Line,
    t: &Timetable,
    carriers: u64,
) -> Result<Option<Vec<u8>>, AllocError>
    requires fits { FitsLine line.now t.now }
    requires legal { IsLegal line.now (timetable_of t.now) }
    requires carriers { (1 ≤ carriers) × (carriers ≤ 1000) }
{
    keeps_its_rules(line);
    let runner: Runner = drive(line, t, carriers);
    if runner.last() - runner.first() >= 100_000 {
        return Ok(None);
    }
    let log = write_log(alloc, line, &runner)?;
    Ok(Some(log))
}

/// The log of a run, or why there is none.
fn recorded(alloc: Global, line: &Line, w: &Written, carriers: u64) -> Result<Vec<u8>, &'static str>
    requires { (1 ≤ carriers) × (carriers ≤ 1000) }
{
    let t = legal_of(alloc, line, w)?;
    match log_of(alloc, line, &t, carriers) {
        Ok(Some(log)) => Ok(log),
        Ok(None) => Err("too long"),
        Err(_) => Err("no memory"),
    }
}

const TWO_CARRIERS: &str =
    "hoist log 1\nat 2\ns put\nl\nl begin 0 1\ns\ns\ns\ns\ns\ns\nl\nl off put\n\
    l\nl begin 0 1\ns\ns\ns\ns\ns\ns\nl\nl off\nend\n";

const ONE_CARRIER: &str =
    "hoist log 1\nat 2\ns put\nl\nl begin 0 1\ns\ns\ns\ns\ns\ns\nl\nl off\nend\n";

const BOTH_HOISTS: &str =
    "hoist log 1\nat 0 3\nss put begin 0 1\nss\nss\nsh\nsh\nsh\nls\nll\nll\nsl\n\
    ss begin 1 2\nhs\nhs\nhs\nss\nls off\nend\n";

/// Whether the run of so many carriers is written as this log, of which this is said.
fn is_recorded(
    alloc: Global,
    line: &Line,
    w: &Written,
    carriers: u64,
    log: &str,
    said: &str,
) -> Result<bool, Fail>
    requires { (1 ≤ carriers) × (carriers ≤ 1000) }
{
    let text = recorded(alloc, line, w, carriers)?;
    let followed = follow(alloc, line, text.as_slice())?;
    let words = followed_text(alloc, &followed)?;
    Ok(text.as_slice() == log.as_bytes() && words.as_slice() == said.as_bytes())
}

#[test]
fn recorded_run_follows(rt: HostRuntime) -> Result<(), Fail> {
    let alloc = rt.alloc();
    let stations = two_stations(alloc).ok_or("two stations")?;
    let two = "follows 20\ncarriers 2\ninside 0\n";
    assert!(rt; is_recorded(alloc, &stations, &TWO_STATIONS, 2, TWO_CARRIERS, two)?);
    // its first tick is 5
    let one = "follows 10\ncarriers 1\ninside 0\n";
    assert!(rt; is_recorded(alloc, &stations, &TURNED, 1, ONE_CARRIER, one)?);
    let far = far_tank(alloc).ok_or("far tank")?;
    let both = "follows 15\ncarriers 1\ninside 0\n";
    assert!(rt; is_recorded(alloc, &far, &FAR_TANK, 1, BOTH_HOISTS, both)?);
    Ok(())
}

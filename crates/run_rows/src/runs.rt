// Runs that are worked by hand.
ghost use Rattle.std.specs.Prelude.{◌≤◌, IfOk};
ghost use Rattle.line_model.specs.Legal.{IsLegal};
ghost use Rattle.timetable.specs.TimetableData.{timetable_of, FitsLine};
ghost use Rattle.startup_rundown.specs.Driving.{IsDoneRun};

use crate::written::{TWICE, TWO_STATIONS, Written, legal_of};
use hoist_base::Line;
use startup_rundown::{Runner, drive};
use std::alloc::{AllocError, Global};
use std::test::Fail;
use tick_machine::{Driver, Event, Frame, Played, What, play};
use timetable::Timetable;
use worked_lines::{one_bath, two_stations};

// What the machine answers of the run of so many carriers.
fn played(alloc: Global, line: &Line, t: &Timetable, carriers: u64) -> Result<Played, AllocError>
    requires fits { FitsLine line.now t.now }
    requires legal { IsLegal line.now (timetable_of t.now) }
    requires carriers { (1 ≤ carriers) × (carriers ≤ 1000) }
    ensures { IfOk result (IsDoneRun line.now (timetable_of t.now) carriers) }
{
    let runner = drive(line, t, carriers);
    let played = play(alloc, line, &runner)?;
    Ok(played)
}

// The first and the last tick of a run, its events, and its last frame.
#[derive(Debug, Drop)]
struct Run {
    first: u64,
    last: u64,
    log: Vec<Event>,
    end: Frame,
}

fn run_of(alloc: Global, line: &Line, w: &Written, carriers: u64) -> Result<Run, &'static str>
    requires { (1 ≤ carriers) × (carriers ≤ 1000) }
{
    let t = legal_of(alloc, line, w)?;
    let runner: Runner = drive(line, &t, carriers);
    let first = runner.first();
    let last = runner.last();
    match played(alloc, line, &t, carriers) {
        Ok(Played::Done { log, end }) => Ok(Run {
            first,
            last,
            log,
            end,
        }),
        Ok(Played::Refused { .. }) => Err("refused"),
        Err(_) => Err("no memory"),
    }
}

fn is_empty(frame: &Frame) -> bool {
    frame.carry.iter().all(|c| c.is_none()) && frame.hold.iter().all(|x| x.is_none())
}

fn put(tick: u64, carrier: u64) -> Event {
    Event {
        tick,
        what: What::Put { carrier },
    }
}

fn off(tick: u64, carrier: u64) -> Event {
    Event {
        tick,
        what: What::Off { carrier },
    }
}

fn begin(tick: u64, carrier: u64, step: u32) -> Event {
    Event {
        tick,
        what: What::Begin {
            carrier,
            step,
            hoist: 0,
        },
    }
}

fn set(tick: u64, carrier: u64, stage: u32) -> Event {
    Event {
        tick,
        what: What::Set { carrier, stage },
    }
}

#[test]
fn runs_end_empty_with_their_events(rt: HostRuntime) -> Result<(), Fail> {
    let alloc = rt.alloc();
    let stations = two_stations(alloc).ok_or("no line")?;
    let run = run_of(alloc, &stations, &TWO_STATIONS, 2)?;
    assert_eq!(rt; (run.first, run.last), (0, 20));
    let events = [
        put(0, 0),
        begin(2, 0, 0),
        set(8, 0, 1),
        off(10, 0),
        put(10, 1),
        begin(12, 1, 0),
        set(18, 1, 1),
        off(20, 1),
    ];
    assert_eq!(rt; run.log.as_slice(), events.as_slice());
    assert!(rt; is_empty(&run.end));
    assert_eq!(rt; run.end.next, 2);
    let bath = one_bath(alloc).ok_or("no line")?;
    let twice = bath.of_degree(alloc, 2)?;
    let run = run_of(alloc, &twice, &TWICE, 5)?;
    assert_eq!(rt; (run.first, run.last), (0, 99));
    assert_eq!(rt; run.log.len(), 30);
    assert_eq!(rt; run.log.as_slice().first(), Some(&put(0, 0)));
    assert_eq!(rt; run.log.as_slice().last(), Some(&off(99, 4)));
    assert!(rt; is_empty(&run.end));
    assert_eq!(rt; run.end.next, 5);
    Ok(())
}

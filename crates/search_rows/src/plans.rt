// The plans of worked lines.
ghost use Rattle.std.specs.Prelude.{◌≤◌, List, length, IsTrue};
ghost use Rattle.path_constraints.specs.Questions.{FitsPath, FitsDecision, child_count};

use choice_tree::{Decision, Question};
use hoist_base::{Line, MoveId, VisitId};
use node_expand::{Expanded, expand};
use path_constraints::fits;
use planning::plan;
use std::alloc::{AllocError, Global};
use std::test::Fail;
use timetable::Timetable;
use worked_lines::{far_tank, one_bath, one_station, two_hoists, two_stations};

// How many children a question on an order or on a tank has.
fn children_of(line: &Line, question: Question) -> usize
    ensures { (path : List Decision) → result ≤ child_count line.now path question }
{
    match question {
        Question::TankOrder { .. } => 2,
        Question::HoistOrder { .. } => 2,
        Question::Choose { v } => match line.stages().get(v.stage as usize) {
            Some(stage) => stage.tanks.as_slice().len(),
            None => 0,
        },
        Question::Assign { .. } => 0,
    }
}

// Whether a decision may stand below a path.
fn is_next(line: &Line, path: &[Decision], decision: Decision) -> bool
    requires { FitsPath line.now path.now }
    ensures { IsTrue result → FitsDecision line.now path.now decision }
{
    if !fits(line, path, decision.question) {
        return false;
    }
    (decision.child as usize) < children_of(line, decision.question)
}

// The plan of the path of these decisions, where they fit the line and leave no question.
fn plan_below(
    alloc: Global,
    line: &Line,
    decisions: &[Decision],
) -> Result<Option<Timetable>, AllocError>
    requires { length decisions.now ≤ 100 }
{
    let mut path = Vec::new(alloc);
    for i in 0..decisions.len() {
        if !is_next(line, path.as_slice(), decisions[i]) {
            return Ok(None);
        }
        path.push(decisions[i])?;
    }
    match expand(alloc, line, path.as_slice(), 101)? {
        Expanded::Solved { solved, .. } => {
            let planned = plan(alloc, line, &solved)?;
            Ok(Some(planned))
        }
        _ => Ok(None),
    }
}

// The period, the put and the off of carrier 0, the tanks that it uses, and for each of its moves the start, the hoist
// and the hoist's positions.
fn numbers(alloc: Global, t: &Timetable) -> Result<Vec<u64>, AllocError> {
    let mut numbers = Vec::new(alloc);
    numbers.push(t.period() as u64)?;
    numbers.push(t.put(0))?;
    numbers.push(t.off(0))?;
    for stage in 0..t.moves() + 1 {
        numbers.push(t.tank(VisitId { carrier: 0, stage }) as u64)?;
    }
    for step in 0..t.moves() {
        let m = MoveId { carrier: 0, step };
        numbers.push(t.start(m))?;
        numbers.push(t.hoist(m) as u64)?;
        for tick in 0..t.period() {
            numbers.push(t.path(t.hoist(m), tick) as u64)?;
        }
    }
    Ok(numbers)
}

fn planned(alloc: Global, line: &Line, decisions: &[Decision]) -> Result<Vec<u64>, Fail>
    requires { length decisions.now ≤ 100 }
{
    let t = plan_below(alloc, line, decisions)?.ok_or("no plan")?;
    Ok(numbers(alloc, &t)?)
}

// The second move of carrier 0, q periods later, comes before the first one.
fn second_first(q: i64) -> Decision {
    Decision {
        question: Question::HoistOrder {
            a: MoveId {
                carrier: 0,
                step: 0,
            },
            b: MoveId {
                carrier: 0,
                step: 1,
            },
            q,
        },
        child: 1,
    }
}

// The last visit of carrier 0, q periods later, comes before its first one in the tank that they share.
fn last_visit_first(q: i64) -> Decision {
    Decision {
        question: Question::TankOrder {
            a: VisitId {
                carrier: 0,
                stage: 0,
            },
            b: VisitId {
                carrier: 0,
                stage: 2,
            },
            q,
        },
        child: 1,
    }
}

// Carrier 0 uses the second tank of stage 1.
fn second_tank() -> Decision {
    Decision {
        question: Question::Choose {
            v: VisitId {
                carrier: 0,
                stage: 1,
            },
        },
        child: 1,
    }
}

#[test]
fn plan_of_two_stations(rt: HostRuntime) -> Result<(), Fail> {
    let line = two_stations(rt.alloc()).ok_or("no line")?;
    let plan = planned(rt.alloc(), &line, &[])?;
    let want: &[u64] = &[10, 0, 10, 0, 1, 2, 0, 2, 1, 0, 0, 1, 2, 3, 4, 4, 3];
    assert_eq!(rt; plan.as_slice(), want);
    Ok(())
}

#[test]
fn plan_of_two_hoists(rt: HostRuntime) -> Result<(), Fail> {
    let line = two_hoists(rt.alloc()).ok_or("no line")?;
    let plan = planned(rt.alloc(), &line, &[second_first(-1)])?;
    let want: &[u64] = &[
        9, 0, 15, 0, 1, 2, 0, 0, 0, 0, 1, 2, 3, 3, 2, 1, 0, 10, 1, 3, 3, 3, 4, 5, 6, 6, 5, 4,
    ];
    assert_eq!(rt; plan.as_slice(), want);
    Ok(())
}

#[test]
fn plan_of_one_bath(rt: HostRuntime) -> Result<(), Fail> {
    let line = one_bath(rt.alloc()).ok_or("no line")?;
    let plan = planned(rt.alloc(), &line, &[second_first(-2), second_first(-1)])?;
    let want: &[u64] = &[
        21, 0, 15, 0, 1, 2, 0, 0, 0, 0, 1, 2, 3, 3, 2, 1, 1, 2, 3, 3, 4, 5, 6, 6, 5, 4, 3, 2, 1,
        10, 0, 0, 0, 1, 2, 3, 3, 2, 1, 1, 2, 3, 3, 4, 5, 6, 6, 5, 4, 3, 2, 1,
    ];
    assert_eq!(rt; plan.as_slice(), want);
    Ok(())
}

#[test]
fn plan_of_far_tank(rt: HostRuntime) -> Result<(), Fail> {
    let line = far_tank(rt.alloc()).ok_or("no line")?;
    let plan = planned(rt.alloc(), &line, &[second_tank(), second_first(-1)])?;
    let want: &[u64] = &[
        9, 0, 15, 0, 1, 2, 0, 0, 0, 0, 1, 2, 3, 3, 2, 1, 0, 10, 1, 3, 3, 3, 4, 5, 6, 6, 5, 4,
    ];
    assert_eq!(rt; plan.as_slice(), want);
    Ok(())
}

// The load and the unload are one tank.
#[test]
fn plan_of_one_station(rt: HostRuntime) -> Result<(), Fail> {
    let line = one_station(rt.alloc()).ok_or("no line")?;
    let decisions = [last_visit_first(-2), second_first(-1), last_visit_first(-1)];
    let plan = planned(rt.alloc(), &line, &decisions)?;
    let want: &[u64] = &[
        19, 0, 19, 0, 1, 0, 2, 0, 0, 0, 0, 0, 1, 2, 3, 3, 2, 1, 1, 2, 3, 3, 2, 1, 0, 0, 0, 12, 0,
        0, 0, 0, 0, 1, 2, 3, 3, 2, 1, 1, 2, 3, 3, 2, 1, 0, 0, 0,
    ];
    assert_eq!(rt; plan.as_slice(), want);
    Ok(())
}

// Expansions of the worked lines.
ghost use Rattle.std.specs.Prelude.{◌≡◌, ◌≤◌, [], ◌∷◌, length, IfOk, IfSome};
ghost use Rattle.longest_path.specs.Bounds.{IsCap};
ghost use Rattle.path_constraints.specs.Questions.{FitsPath};
ghost use Rattle.node_expand.specs.Shown.{Shows};

use choice_tree::{Constraint, Decision, Proof, Question};
use hoist_base::{Line, MoveId, VisitId};
use node_expand::{Expanded, Expander, expand};
use path_constraints::base_of;
use std::alloc::{AllocError, Global};
use std::test::Fail;
use worked_lines::{Numbers, Row, far_tank, line_of_rows, one_bath, slow_choice, two_hoists};

// A decision on the question that is asked before any other.
fn decision_of(line: &Line, root: &Expanded, child: u32) -> Option<Decision>
    requires { Shows line.now [] 101 root.now }
    ensures { IfSome result (λ decision. FitsPath line.now (decision ∷ [])) }
{
    match root {
        Expanded::Split {
            question,
            children,
            ..
        } => {
            if child < *children {
                Some(Decision {
                    question: *question,
                    child,
                })
            } else {
                None
            }
        }
        _ => None,
    }
}

// The question of which of the two moves of carrier 0 goes first.
fn on_moves(q: i64) -> Question {
    Question::HoistOrder {
        a: MoveId {
            carrier: 0,
            step: 0,
        },
        b: MoveId {
            carrier: 0,
            step: 1,
        },
        q,
    }
}

fn choose(stage: u32) -> Question {
    Question::Choose {
        v: VisitId { carrier: 0, stage },
    }
}

// Whether it is a split on this question with two children, at this period and with this walk.
fn splits_in_two(expanded: &Expanded, wanted: Question, at: u32, walk: &[Constraint]) -> bool {
    match expanded {
        Expanded::Split {
            question,
            children,
            period,
            low,
        } => { *question == wanted && *children == 2 && *period == at && low.as_slice() == walk }
        _ => false,
    }
}

// Whether a walk is there and has these constraints.
fn is_walk(proof: &Option<Proof>, walk: &[Constraint]) -> bool {
    match proof {
        Some(proof) => proof.as_slice() == walk,
        None => false,
    }
}

// Whether it is closed by these two walks.
fn closes(expanded: &Expanded, first: &[Constraint], second: &[Constraint]) -> bool {
    match expanded {
        Expanded::Closed { low, high } => is_walk(low, first) && is_walk(high, second),
        _ => false,
    }
}

// Whether it is solved at this period with this walk.
fn solves(expanded: &Expanded, at: u32, walk: &[Constraint]) -> bool {
    match expanded {
        Expanded::Solved { solved, low } => solved.period == at && low.as_slice() == walk,
        _ => false,
    }
}

// Whether it is solved with these ticks and hoists of its moves and these tanks of its visits.
fn plans(expanded: &Expanded, ticks: &[i64], hoists: &[u32], tanks: &[u32]) -> bool {
    match expanded {
        Expanded::Solved { solved, .. } => {
            solved.ticks.as_slice() == ticks
                && solved.hoists.as_slice() == hoists
                && solved.tanks.as_slice() == tanks
        }
        _ => false,
    }
}

// Whether no hoist may reach the first move.
fn is_stuck_at_once(expanded: &Expanded) -> bool {
    match expanded {
        Expanded::Stuck { m } => m.carrier == 0 && m.step == 0,
        _ => false,
    }
}

// The expansion before any decision.
fn root_of(alloc: Global, line: &Line, cap: u32) -> Result<Expanded, AllocError>
    requires { IsCap cap }
    ensures { IfOk result (λ x. Shows line.now [] cap x) }
{
    expand(alloc, line, &[], cap)
}

// The expansion below a child of the question that is asked before any other.
fn child_of_root(alloc: Global, line: &Line, child: u32) -> Result<Option<Expanded>, AllocError> {
    let root = root_of(alloc, line, 101)?;
    match decision_of(line, &root, child) {
        None => Ok(None),
        Some(decision) => Ok(Some(expand(alloc, line, &[decision], 101)?)),
    }
}

#[test]
fn expand_two_hoists(rt: HostRuntime) -> Result<(), Fail> {
    let alloc = rt.alloc();
    let line = two_hoists(alloc).ok_or("no line")?;
    let root = root_of(alloc, &line, 101)?;
    let back = Constraint::Repeat { c: 0, k: 0 };
    assert!(rt; splits_in_two(&root, on_moves(-1), 8, &[back]));
    let rising = [
        Constraint::Decided { i: 0 },
        Constraint::Visit { c: 0, k: 1 },
    ];
    let closed = child_of_root(alloc, &line, 0)?.ok_or("no child")?;
    assert!(rt; closes(&closed, &[back], &rising));
    let walk = [Constraint::Min { c: 0, k: 1 }, Constraint::Decided { i: 0 }];
    let solved = child_of_root(alloc, &line, 1)?.ok_or("no child")?;
    assert!(rt; solves(&solved, 9, &walk));
    assert!(rt; plans(&solved, &[0, 10], &[0, 1], &[0, 1, 2]));
    Ok(())
}

// One expander at the root, at a child of it and at the root again.
fn there_and_back(
    alloc: Global,
    line: &Line,
    child: u32,
) -> Result<Option<(Expanded, Expanded)>, AllocError> {
    let base = base_of(alloc, line)?;
    let mut expander = Expander::new(alloc, line, &base)?;
    let root = expander.expand(alloc, line, &[], 101)?;
    let Some(decision) = decision_of(line, &root, child) else {
        return Ok(None);
    };
    let below = expander.expand(alloc, line, &[decision], 101)?;
    let again = expander.expand(alloc, line, &[], 101)?;
    Ok(Some((below, again)))
}

// One expander goes below a choice and takes it back.
#[test]
fn over_a_choice(rt: HostRuntime) -> Result<(), Fail> {
    let alloc = rt.alloc();
    let line = far_tank(alloc).ok_or("no line")?;
    let back = Constraint::Repeat { c: 0, k: 0 };
    let (near, again) = there_and_back(alloc, &line, 1)?.ok_or("no child")?;
    assert!(rt; splits_in_two(&near, on_moves(-1), 8, &[back]));
    assert!(rt; splits_in_two(&again, choose(1), 8, &[back]));
    let far = child_of_root(alloc, &line, 0)?.ok_or("no child")?;
    assert!(rt; is_stuck_at_once(&far));
    Ok(())
}

// No hoist may reach the only move.
#[test]
fn unreached(rt: HostRuntime) -> Result<(), Fail> {
    let alloc = rt.alloc();
    let numbers = Numbers {
        track: 4,
        gap: 4,
        hoists: 2,
        degree: 1,
        max_period: 100,
        load: 2,
        unload: 2,
    };
    let station = Row {
        tanks: &[0],
        min: 0,
        max: None,
        lift: 1,
        lower: 0,
    };
    let end = Row {
        tanks: &[1],
        lift: 0,
        lower: 1,
        ..station
    };
    let line = line_of_rows(alloc, numbers, &[("load", 0), ("out", 4)], &[station, end]).ok_or(
        "no line",
    )?;
    let root = root_of(alloc, &line, 101)?;
    assert!(rt; is_stuck_at_once(&root));
    Ok(())
}

#[test]
fn one_bath_root(rt: HostRuntime) -> Result<(), Fail> {
    let alloc = rt.alloc();
    let line = one_bath(alloc).ok_or("no line")?;
    let root = root_of(alloc, &line, 101)?;
    let back = [Constraint::Repeat { c: 0, k: 0 }];
    assert!(rt; splits_in_two(&root, on_moves(-2), 8, &back));
    Ok(())
}

// The least period depends on both tanks of the choice: the nearer way there, the farther way back.
#[test]
fn slow_choice_root(rt: HostRuntime) -> Result<(), Fail> {
    let alloc = rt.alloc();
    let line = slow_choice(alloc).ok_or("no line")?;
    let root = root_of(alloc, &line, 51)?;
    let walk = [
        Constraint::Min { c: 0, k: 1 },
        Constraint::Visit { c: 0, k: 1 },
    ];
    assert!(rt; splits_in_two(&root, choose(1), 50, &walk));
    Ok(())
}

// One bath between the ends of the hoists' reach: both hoists reach both moves.
fn both_reach(alloc: Global) -> Option<Line> {
    let numbers = Numbers {
        track: 8,
        gap: 2,
        hoists: 2,
        degree: 1,
        max_period: 100,
        load: 0,
        unload: 0,
    };
    let station = Row {
        tanks: &[0],
        min: 0,
        max: None,
        lift: 1,
        lower: 0,
    };
    let bath = Row {
        tanks: &[1],
        min: 3,
        lower: 1,
        ..station
    };
    let end = Row {
        tanks: &[2],
        lift: 0,
        lower: 1,
        ..station
    };
    let tanks = [("load", 2), ("bath", 4), ("out", 6)];
    line_of_rows(alloc, numbers, &tanks, &[station, bath, end])
}

// The period of an expansion that has one.
fn period_of(expanded: &Expanded) -> Option<u32> {
    match expanded {
        Expanded::Solved { solved, .. } => Some(solved.period),
        Expanded::Split { period, .. } => Some(*period),
        _ => None,
    }
}

// Whether an expander that expanded other paths gives what a new one gives, and the period.
fn agrees(
    alloc: Global,
    expander: &mut Expander,
    line: &Line,
    path: &[Decision],
    cap: u32,
) -> Result<(bool, Option<u32>), AllocError>
    requires line { expander.old ≡ line.now }
    requires fits { FitsPath line.now path.now }
    requires short { length path.now ≤ 20000 }
    requires cap { IsCap cap }
    ensures { expander.new ≡ expander.old }
{
    let old = expander.expand(alloc, line, path, cap)?;
    let new = expand(alloc, line, path, cap)?;
    let same = format!(in alloc; "{old:?}")? == format!(in alloc; "{new:?}")?;
    Ok((same, period_of(&old)))
}

// The same of the root's child under a cap, by an expander that expanded the root.
fn child_agrees(
    alloc: Global,
    line: &Line,
    child: u32,
    cap: u32,
) -> Result<Option<(bool, Option<u32>)>, AllocError>
    requires cap { IsCap cap }
{
    let base = base_of(alloc, line)?;
    let mut expander = Expander::new(alloc, line, &base)?;
    let root = expander.expand(alloc, line, &[], 101)?;
    let Some(decision) = decision_of(line, &root, child) else {
        return Ok(None);
    };
    let found = agrees(alloc, &mut expander, line, &[decision], cap)?;
    Ok(Some(found))
}

// A question on a hoist splits the root at period 6. A decision on it adds no constraint: its children have that period
// under the caps above it, and none under the others, with the root's climb as without it.
#[test]
fn children_of_hoists(rt: HostRuntime) -> Result<(), Fail> {
    let alloc = rt.alloc();
    let line = both_reach(alloc).ok_or("no line")?;
    let root = root_of(alloc, &line, 101)?;
    let back = Constraint::Repeat { c: 0, k: 0 };
    let m = MoveId {
        carrier: 0,
        step: 0,
    };
    assert!(rt; splits_in_two(&root, Question::Assign { m }, 6, &[back]));
    let rows = [
        (0, 101, Some(6)),
        (0, 7, Some(6)),
        (0, 6, None),
        (1, 5, None),
        (1, 101, Some(6)),
    ];
    for (child, cap, period) in rows {
        let want = Some((true, period));
        assert_eq!(rt;
            child_agrees(alloc, &line, child, cap)?,
            want,
            "{child} {cap}"
        );
    }
    Ok(())
}

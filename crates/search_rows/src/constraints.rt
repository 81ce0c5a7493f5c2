// The constraints of the worked lines, and the questions that fit them.
ghost use Rattle.std.specs.Prelude.{◌<◌, ◌∷◌, [], IsTrue};
ghost use Rattle.path_constraints.specs.Questions.{FitsPath};
ghost use Rattle.path_constraints.specs.Constraints.{IsOrder};

use choice_tree::{Constraint, Decision, Question};
use hoist_base::{Line, MoveId, VisitId};
use longest_path::Arc;
use path_constraints::{base_of, constraint_of, decide, fails, fits, system_of};
use std::test::Fail;
use worked_lines::{far_tank, one_bath, rinse_twice, two_hoists};

// The numbers of a constraint.
fn numbers(a: Arc) -> (u32, u32, i64, i64) {
    (a.from, a.to, a.w, a.q)
}

// Whether this is a child of a question of order.
fn is_child_of_order(question: Question, child: u32) -> bool
    ensures { IsTrue result → IsOrder question × (child < 2) }
{
    match question {
        Question::TankOrder { .. } => child < 2,
        Question::HoistOrder { .. } => child < 2,
        _ => false,
    }
}

// Whether a decision on an order fits a path without decisions.
fn fits_alone(line: &Line, decision: Decision) -> bool
    ensures { IsTrue result → FitsPath line.now (decision ∷ []) }
{
    if !fits(line, &[], decision.question) {
        return false;
    }
    is_child_of_order(decision.question, decision.child)
}

#[test]
fn one_bath_system(rt: HostRuntime) -> Result<(), Fail> {
    let line = one_bath(rt.alloc()).ok_or("no line")?;
    let s = base_of(rt.alloc(), &line)?;
    let want = [
        (0, 1, 10, 0),
        (1, 0, -15, 0),
        (0, 0, 1, -1),
        (1, 0, -3, -1),
        (1, 1, 1, -1),
        (0, 0, 8, -1),
        (1, 1, 8, -1),
    ];
    assert_eq!(rt; (s.nodes(), s.arcs().len()), (2, 7));
    for (arc, want) in s.arcs().iter().zip(want) {
        assert_eq!(rt; numbers(*arc), want);
    }
    Ok(())
}

// A question on two moves of carrier 0.
fn on_moves(first: u32, second: u32, q: i64) -> Question {
    Question::HoistOrder {
        a: MoveId {
            carrier: 0,
            step: first,
        },
        b: MoveId {
            carrier: 0,
            step: second,
        },
        q,
    }
}

// A question on two visits of carrier 0.
fn on_visits(first: u32, second: u32, q: i64) -> Question {
    Question::TankOrder {
        a: VisitId {
            carrier: 0,
            stage: first,
        },
        b: VisitId {
            carrier: 0,
            stage: second,
        },
        q,
    }
}

fn choose(stage: u32) -> Question {
    Question::Choose {
        v: VisitId { carrier: 0, stage },
    }
}

fn assign(step: u32) -> Question {
    Question::Assign {
        m: MoveId { carrier: 0, step },
    }
}

#[test]
fn decided_on_two_hoists(rt: HostRuntime) -> Result<(), Fail> {
    let alloc = rt.alloc();
    let line = two_hoists(alloc).ok_or("no line")?;
    let decision = Decision {
        question: on_moves(0, 1, -1),
        child: 1,
    };
    let fitting = fits_alone(&line, decision);
    assert!(rt; fitting);
    if !fitting {
        return Ok(());
    }
    let path = [decision];
    let mut s = base_of(alloc, &line)?;
    assert!(rt; decide(&mut s, &line, &path, 0)?);
    let whole = system_of(alloc, &line, &path)?;
    assert_eq!(rt; (s.arcs().len(), whole.arcs().len()), (8, 8));
    assert_eq!(rt;
        s.arcs().last().map(|arc| numbers(*arc)),
        Some((1, 0, -1, -1))
    );
    let decided = constraint_of(&line, &path, Constraint::Decided { i: 0 });
    assert_eq!(rt; decided.map(numbers), Some((1, 0, -1, -1)));
    let longest = constraint_of(&line, &path, Constraint::Max { c: 0, k: 1 });
    assert_eq!(rt; longest.map(numbers), Some((1, 0, -15, 0)));
    for name in [
        Constraint::Decided { i: 1 },
        Constraint::Max { c: 0, k: 2 },
        Constraint::Min { c: 1, k: 1 },
        Constraint::Visit { c: 0, k: 3 },
    ] {
        assert!(rt; constraint_of(&line, &path, name).is_none());
    }
    Ok(())
}

#[test]
fn questions_that_fit(rt: HostRuntime) -> Result<(), Fail> {
    let alloc = rt.alloc();
    let hoists = two_hoists(alloc).ok_or("no line")?;
    let twice = rinse_twice(alloc).ok_or("no line")?;
    let far = far_tank(alloc).ok_or("no line")?;
    for (line, question, want) in [
        (&hoists, on_moves(0, 1, -1), true),
        (&hoists, on_moves(0, 1, 1_000_000_000), true),
        (&hoists, on_moves(0, 1, -1_000_000_001), false),
        (&hoists, on_moves(1, 0, 1), false),
        (&hoists, on_moves(0, 2, 1), false),
        (&hoists, assign(0), false),
        (&twice, on_visits(1, 3, -1), true),
        (&twice, on_visits(1, 2, -1), false),
        (&twice, on_visits(3, 1, 1), false),
        (&far, choose(1), true),
        (&far, choose(0), false),
        (&far, on_moves(0, 1, 0), false),
    ] {
        assert_eq!(rt; fits(line, &[], question), want, "{question:?}");
    }
    Ok(())
}

// The rinse is held in [2, 5) and in [10, 13), period by period.
#[test]
fn held_twice(rt: HostRuntime) -> Result<(), Fail> {
    let line = rinse_twice(rt.alloc()).ok_or("no line")?;
    let ticks = [0, 4, 8, 12];
    for (q, want) in [(-3, false), (-2, false), (-1, true), (0, false), (1, false)] {
        let question = on_visits(1, 3, q);
        let fitting = fits(&line, &[], question);
        assert!(rt; fitting);
        if fitting {
            assert_eq!(rt; fails(&line, &[], question, &ticks, 6), want, "{q}");
        }
    }
    Ok(())
}

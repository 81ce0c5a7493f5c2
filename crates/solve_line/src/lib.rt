//! The answer to a line under a budget of splits: the search, and the plan of the best that it finds.
#![tactic(auto)]

pub mod laws;

ghost use Rattle.std.specs.Prelude.{◌≡◌, ℕ, ◌≤◌, IfOk, MatchOption, IfSome, ⊤, is_some};
ghost use Rattle.answer_text.specs.Answers.{IsWritable, HasSmallPath};
ghost use Rattle.hoist_base.specs.Valid.{IsLine};
ghost use Rattle.line_model.specs.Legal.{IsLegal};
ghost use Rattle.timetable.specs.TimetableData.{timetable_of, IsTimetableOf};
ghost use Rattle.choice_tree.specs.Trees.{IsTree};
ghost use Rattle.node_expand.specs.Plannable.{IsPlannable};
ghost use Rattle.branch_rounds.specs.Searched.{IsSearched};
ghost use Rattle.cert_checker.specs.declared.reason.Reason.{Reason};
ghost use Rattle.cert_checker.specs.Reasons.{HasReason};
ghost use Rattle.cert_checker.specs.Rules.{KeepsRules};
ghost use Rattle.solve_line.specs.AnswerOf.{verdict_of, IsSolution, IsPlanOr};
ghost use Rattle.solve_line.specs.Claims.{KeepsClaim};
ghost use Rattle.solve_line.specs.Solved.{IsSolved};

use answer_text::{Answer, Verdict};
use branch_rounds::{Outcome, search, search_alone};
use hoist_base::Line;
use node_expand::Solved;
use outside::Gate;
use planning::plan;
use std::alloc::{AllocError, Global};
use std::thread::Threads;
use timetable::Timetable;

/// The verdict on an outcome: a best with nothing left is optimal, nothing left without a best is none, and else the
/// search is unfinished.
pub fn verdict_on(outcome: &Outcome) -> Verdict
    ensures { result ≡ verdict_of outcome.now }
{
    if outcome.left > 0 {
        return Verdict::Unfinished;
    }
    match outcome.best {
        Some(_) => Verdict::Optimal,
        None => Verdict::Nothing,
    }
}

/// The plan of the best, where there is one.
fn planned(
    alloc: Global,
    line: &Line,
    best: &Option<Solved>,
) -> Result<Option<Timetable>, AllocError>
    requires { IfSome best.now (λ s. IsPlannable line.now s) }
    ensures plan { IfOk result (λ t. IsPlanOr line.now best.now t) }
    ensures legal { IfOk result (λ t. IfSome t (λ d. IsLegal line.now (timetable_of d))) }
    ensures fits { IfOk result (λ t. MatchOption t ⊤ (λ d. IsTimetableOf line.now d × HasSmallPath d)) }
    ensures there { IfOk result (λ t. is_some t ≡ is_some best.now) }
{
    match best {
        None => Ok(None),
        Some(solved) => {
            let timetable = plan(alloc, line, solved)?;
            Ok(Some(timetable))
        }
    }
}

/// The answer of an outcome of the search, whatever the budget of that search was.
fn answer_of(alloc: Global, line: &Line, outcome: Outcome) -> Result<Answer, AllocError>
    requires { IfSome outcome.best (λ s. IsPlannable line.now s) }
    ensures { IfOk result (λ a. (budget : ℕ) → budget ≤ 20000 → IsSearched line.now budget outcome
        → IsSolved line.now budget a) }
{
    let timetable = planned(alloc, line, &outcome.best)?;
    let verdict = verdict_on(&outcome);
    Ok(Answer {
        verdict,
        bound: outcome.bound,
        splits: outcome.splits,
        timetable,
        tree: outcome.tree,
    })
}

/// The answer to a line under a budget of splits; the number of workers, 1 to 64, and the gate have no part in it.
///
/// Its tree proves its bound and has no more splits than the budget, its timetable, where there is one, is legal, and
/// its verdict says what they come to. So the checker accepts it: it has no reason to be rejected.
pub fn solve<R: Threads + Sync, G: Gate>(
    rt: &R,
    alloc: Global,
    line: &Line,
    budget: u32,
    workers: u32,
    gate: &G,
) -> Result<Answer, AllocError>
    requires budget { budget ≤ 20000 }
    requires workers { (1 ≤ workers) × (workers ≤ 64) }
    ensures solution { IfOk result (λ a. IsSolution line.now budget a) }
    ensures claim { IfOk result (λ a. KeepsClaim line.now budget a) }
    ensures writable { IfOk result (λ a. IsWritable line.now a) }
    ensures tree { IfOk result (λ a. IsTree a.tree) }
    ensures spent { IfOk result (λ a. a.splits ≤ budget) }
    ensures accepted { IfOk result (λ a. KeepsRules line.now a) }
    ensures no_reason { IfOk result (λ a. (r : Reason) → HasReason line.now a r → ⊥) }
{
    let outcome = search(rt, alloc, line, budget, workers, gate)?;
    let answer = answer_of(alloc, line, outcome)?;
    Ok(answer)
}

/// `solve` by one worker, without threads and without a gate.
pub fn solve_alone(alloc: Global, line: &Line, budget: u32) -> Result<Answer, AllocError>
    requires { budget ≤ 20000 }
    ensures valid { IfOk result (λ _. IsLine line.now) }
    ensures solution { IfOk result (λ a. IsSolution line.now budget a) }
    ensures claim { IfOk result (λ a. KeepsClaim line.now budget a) }
    ensures writable { IfOk result (λ a. IsWritable line.now a) }
    ensures accepted { IfOk result (λ a. KeepsRules line.now a) }
    ensures no_reason { IfOk result (λ a. (r : Reason) → HasReason line.now a r → ⊥) }
{
    let outcome = search_alone(alloc, line, budget)?;
    let answer = answer_of(alloc, line, outcome)?;
    Ok(answer)
}

// The rules of an answer as a whole.
ghost use Rattle.std.specs.Prelude.{◌≡◌, ◌+◌, MatchOption, IfOk, IsSome, IfSome, option_map};
ghost use Rattle.hoist_base.specs.LineData.{LineData};
ghost use Rattle.hoist_base.specs.Valid.{IsLine};
ghost use Rattle.line_model.specs.Legal.{IsLegal};
ghost use Rattle.timetable.specs.TimetableData.{timetable_of, IsTimetableOf};
ghost use Rattle.choice_tree.specs.Trees.{IsTree};
ghost use Rattle.answer_text.specs.Answers.{IsWritable};
ghost use Rattle.cert_checker.specs.Reasons.{split_count};
ghost use Rattle.cert_checker.specs.Rules.{IsClaim, HasItsLeft};
ghost use Rattle.cert_checker.specs.Waiting.{IsFirstFrom};

use crate::reason::Reason;
use crate::tree::{count_splits, first_left, has_left};
use answer_text::{Answer, Verdict};
use hoist_base::Line;
use std::alloc::{AllocError, Global};
use timetable::first_fault;

/// The period of an answer's timetable, where it has one.
pub(crate) fn period_of(a: &Answer) -> Option<u32>
    ensures { result ≡ option_map (λ t. t.period) a.now.timetable }
{
    match &a.timetable {
        None => None,
        Some(timetable) => Some(timetable.period()),
    }
}

// The bound where it isn't the one that is wanted.
fn other_bound(seen: u32, want: u32) -> Option<Reason>
    ensures { MatchOption result (seen ≡ want) (λ r. (r ≡ Reason.Bound seen want) × (seen ≡ want → ⊥)) }
{
    if seen == want {
        return None;
    }
    Some(Reason::Bound { seen, want })
}

/// Whether the timetable and the bound are what the verdict asks for.
pub(crate) fn claim_reason(line: &Line, a: &Answer) -> Option<Reason>
    ensures first { MatchOption result (IsClaim line.now a.now.verdict a.now.timetable a.now.bound)
        (λ r. IsFirstFrom line.now a.now 0 r) }
    ensures other { IsSome result → IsClaim line.now a.now.verdict a.now.timetable a.now.bound → ⊥ }
    ensures valid { IsLine line.now }
{
    let beyond = line.max_period() + 1;
    let seen = a.bound;
    match a.verdict {
        Verdict::Optimal => match period_of(a) {
            None => Some(Reason::TimetableMissing),
            Some(want) => other_bound(seen, want),
        },
        Verdict::Nothing => match period_of(a) {
            None => other_bound(seen, beyond),
            Some(_) => Some(Reason::TimetableExtra),
        },
        Verdict::Unfinished => {
            let want = period_of(a).unwrap_or(beyond);
            if seen <= want {
                return None;
            }
            Some(Reason::Bound { seen, want })
        }
    }
}

/// Whether the splits of the tree are counted.
pub(crate) fn splits_reason(a: &Answer) -> Option<Reason>
    ensures first { (l : LineData) → MatchOption result (a.now.splits ≡ split_count a.now.tree)
        (λ r. IsFirstFrom l a.now 3 r) }
    ensures valid { IsTree a.now.tree }
{
    let seen = a.splits;
    let count = count_splits(&a.tree);
    if seen == count {
        return None;
    }
    Some(Reason::Splits { seen, count })
}

/// Whether a node is left just where the answer is open.
pub(crate) fn left_reason(alloc: Global, a: &Answer) -> Result<Option<Reason>, AllocError>
    ensures { IfOk result (λ answer. (l : LineData)
        → MatchOption answer (HasItsLeft a.now a.now.verdict) (λ r. IsFirstFrom l a.now 4 r)) }
{
    if a.verdict == Verdict::Unfinished {
        if has_left(&a.tree) {
            return Ok(None);
        }
        return Ok(Some(Reason::NoLeft));
    }
    match first_left(alloc, &a.tree)? {
        None => Ok(None),
        Some(node) => Ok(Some(Reason::LeftNode { node })),
    }
}

/// Whether the timetable, where there is one, is legal.
pub(crate) fn fault_reason(line: &Line, a: &Answer) -> Option<Reason>
    requires { IsWritable line.now a.now }
    ensures { MatchOption result (IfSome a.now.timetable (λ t. IsLegal line.now (timetable_of t)))
        (λ r. IsFirstFrom line.now a.now 6 r) }
{
    match &a.timetable {
        None => None,
        Some(timetable) => match first_fault(line, timetable) {
            None => None,
            Some(fault) => Some(Reason::Fault(fault)),
        },
    }
}

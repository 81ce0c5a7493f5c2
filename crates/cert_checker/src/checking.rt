// The call that checks an answer.
ghost use Rattle.std.specs.Prelude.{◌≡◌, ◌↔◌, IfOk};
ghost use Rattle.line_model.specs.Legal.{NoneBelow};
ghost use Rattle.answer_text.specs.Answers.{IsWritable};
ghost use Rattle.cert_checker.specs.Order.{IsChecked, IsAccepted};
ghost use Rattle.cert_checker.specs.Order as order;
ghost use Rattle.cert_checker.specs.Rules.{KeepsRules};

use crate::checked::{Checked, Claimed};
use crate::claims::{claim_reason, fault_reason, left_reason, period_of, splits_reason};
use crate::tree::first_flawed;
use answer_text::Answer;
use hoist_base::Line;
use std::alloc::{AllocError, Global};
use std::thread::Threads;

fn claim_of(a: &Answer) -> Claimed
    ensures { result ≡ order.claim_of a.now }
{
    Claimed {
        verdict: a.verdict,
        bound: a.bound,
        period: period_of(a),
    }
}

/// Checks an answer to a line: whether it keeps every rule, or else the first reason to reject it.
///
/// The answer is one that has a text for this line. An accepted answer's timetable, where it has one, is legal, its
/// tree proves its bound, and so no legal timetable of the line has a smaller period.
pub fn check<R: Threads + Sync>(
    rt: &R,
    alloc: Global,
    line: &Line,
    a: &Answer,
) -> Result<Checked, AllocError>
    requires { IsWritable line.now a.now }
    ensures first { IfOk result (λ checked. IsChecked line.now a.now checked) }
    ensures kept { IfOk result (λ checked. IsAccepted checked ↔ KeepsRules line.now a.now) }
    ensures bounds { IfOk result (λ checked. IsAccepted checked → NoneBelow line.now a.now.bound) }
{
    if let Some(reason) = claim_reason(line, a) {
        return Ok(Checked::Rejected(reason));
    }
    if let Some(reason) = splits_reason(a) {
        return Ok(Checked::Rejected(reason));
    }
    if let Some(reason) = left_reason(alloc, a)? {
        return Ok(Checked::Rejected(reason));
    }
    if let Some(reason) = fault_reason(line, a) {
        return Ok(Checked::Rejected(reason));
    }
    if let Some(reason) = first_flawed(rt, alloc, line, &a.tree, a.bound)? {
        return Ok(Checked::Rejected(reason));
    }
    Ok(Checked::Accepted(claim_of(a)))
}

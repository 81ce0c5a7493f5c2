// What the checker answers, in words.
ghost use Rattle.std.specs.Prelude.{◌≡◌, ◌++◌, codes, decimal, OnOk, IfOk};
ghost use Rattle.std.specs.Fmt.{signed_decimal};
ghost use Rattle.answer_text.specs.Words.{verdict_text};
ghost use Rattle.check_text.specs.Faults.{fault_of};
ghost use Rattle.check_text.specs.Reasons.{stuck_text, sums_text, at_node, reason_of, checked_of};

use crate::faults::push_fault;
use cert_checker::{Checked, Claimed, Reason, Sums};
use hoist_base::MoveId;
use std::alloc::{AllocError, Global};
use text_writing::{Worded, push_word_number, push_word_pair, push_word_signed};

fn push_sums(text: &mut Vec<u8>, sums: Option<Sums>) -> Result<(), AllocError>
    ensures { OnOk result (text.new.items ≡ text.old.items ++ sums_text sums) }
{
    match sums {
        None => text.extend_from_slice(b" none")?,
        Some(sums) => {
            push_word_signed(text, b" ", sums.w)?;
            push_word_signed(text, b" ", sums.q)?;
        }
    }
    Ok(())
}

fn push_stuck(text: &mut Vec<u8>, single: bool, m: MoveId) -> Result<(), AllocError>
    ensures { OnOk result (text.new.items ≡ text.old.items ++ (codes " stuck " ++ stuck_text single m.carrier m.step)) }
{
    if single {
        push_word_number(text, b" stuck ", m.step as u64)?;
    } else {
        push_word_pair(text, b" stuck ", m.carrier, m.step)?;
    }
    Ok(())
}

/// The period that no walk of a leaf refutes, and the sums of its walks.
fn push_period(
    text: &mut Vec<u8>,
    period: u32,
    low: Option<Sums>,
    high: Option<Sums>,
) -> Result<(), AllocError>
    ensures { OnOk result (text.new.items ≡ text.old.items
        ++ (codes " period " ++ (decimal period ++ (codes " sums" ++ (sums_text low ++ sums_text high))))) }
{
    push_word_number(text, b" period ", period as u64)?;
    text.extend_from_slice(b" sums")?;
    push_sums(text, low)?;
    push_sums(text, high)?;
    Ok(())
}

/// A node of the tree, what is wrong there, and at which constraint.
fn push_at_node(text: &mut Vec<u8>, node: u32, word: &[u8], place: u32) -> Result<(), AllocError>
    ensures { OnOk result (text.new.items ≡ text.old.items ++ at_node node (word.now ++ decimal place)) }
{
    push_word_number(text, b"node ", node as u64)?;
    push_word_number(text, word, place as u64)?;
    Ok(())
}

/// Writes a reason; `single` says whether every stage of the line has one tank.
fn push_reason(text: &mut Vec<u8>, single: bool, reason: Reason) -> Result<(), AllocError>
    ensures { OnOk result (text.new.items ≡ text.old.items ++ reason_of single reason) }
{
    match reason {
        Reason::TimetableMissing => text.extend_from_slice(b"timetable missing")?,
        Reason::TimetableExtra => text.extend_from_slice(b"timetable extra")?,
        Reason::Bound { seen, want } => push_word_pair(text, b"bound ", seen, want)?,
        Reason::Splits { seen, count } => push_word_pair(text, b"splits ", seen, count)?,
        Reason::LeftNode { node } => push_word_number(text, b"left node ", node as u64)?,
        Reason::NoLeft => text.extend_from_slice(b"no left")?,
        Reason::Fault(fault) => push_fault(text, fault)?,
        Reason::Question { node } => {
            push_word_number(text, b"node ", node as u64)?;
            text.extend_from_slice(b" question")?;
        }
        Reason::Stuck { node, m } => {
            push_word_number(text, b"node ", node as u64)?;
            push_stuck(text, single, m)?;
        }
        Reason::Token { node, place } => push_at_node(text, node, b" name ", place)?,
        Reason::Joint { node, place } => push_at_node(text, node, b" joint ", place)?,
        Reason::Period {
            node,
            period,
            low,
            high,
        } => {
            push_word_number(text, b"node ", node as u64)?;
            push_period(text, period, low, high)?;
        }
    }
    Ok(())
}

fn accepted(alloc: Global, claimed: Claimed) -> Result<Vec<u8>, AllocError>
    ensures { IfOk result (λ text. text.items ≡ codes "accepted "
        ++ (verdict_text claimed.verdict ++ (codes " " ++ (decimal claimed.bound ++ codes "\n")))) }
{
    let mut text = Vec::from_slice(alloc, b"accepted ")?;
    text.extend_from_slice(claimed.verdict.word())?;
    push_word_number(&mut text, b" ", claimed.bound as u64)?;
    text.push(b'\n')?;
    Ok(text)
}

fn rejected(alloc: Global, single: bool, reason: Reason) -> Result<Vec<u8>, AllocError>
    ensures { IfOk result (λ text. text.items ≡ codes "rejected: " ++ (reason_of single reason ++ codes "\n")) }
{
    let mut text = Vec::from_slice(alloc, b"rejected: ")?;
    push_reason(&mut text, single, reason)?;
    text.push(b'\n')?;
    Ok(text)
}

/// What the checker answers to an answer, as a line; `single` says whether every stage of the line has one tank.
pub fn checked_text(alloc: Global, single: bool, checked: &Checked) -> Result<Vec<u8>, AllocError>
    ensures { IfOk result (λ text. text.items ≡ checked_of single checked.now) }
{
    match *checked {
        Checked::Accepted(claimed) => accepted(alloc, claimed),
        Checked::Rejected(reason) => rejected(alloc, single, reason),
    }
}

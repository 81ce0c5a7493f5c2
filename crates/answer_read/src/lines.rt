// Constraints, walks and lines of the tree, read from the front of the bytes.
ghost use Rattle.std.specs.Prelude.{◌≡◌, length, codes};
ghost use Rattle.field_reading.specs.Reading.{items_at, kind_at};
ghost use Rattle.field_reading.specs.Gives.{Gives};
ghost use Rattle.answer_read.specs.Lines.{row_word, row_kinds, tail_word, row_rest, row_at};
ghost use Rattle.answer_read.specs.Lines.{pair_at, token_rest, token_at, walk_at, walk_line_at};
ghost use Rattle.answer_read.specs.Lines.{counted_at, order_at, tail_rest, tail_at, stuck_at, left_at};

use crate::row::{Row, RowKind, Tail};
use answer_text::{
    MOST_CARRIER, MOST_CHILDREN, MOST_DECISION, MOST_SHIFT, MOST_STAGE, MOST_TOKENS, TokenKind,
};
use choice_tree::{Constraint, Proof};
use field_reading::{Stop, kind, number, signed, word};
use hoist_base::{MoveId, VisitId};
use std::alloc::Global;
use text_writing::Worded;

impl Worded for RowKind {
    ghost word = { row_word };

    fn word(&self) -> &'static [u8]
        ensures { result.now ≡ row_word self.now }
    {
        match self {
            RowKind::Choose => b"split choose ",
            RowKind::TankOrder => b"split tank ",
            RowKind::HoistOrder => b"split hoist ",
            RowKind::Assign => b"split assign ",
            RowKind::ClosedLow => b"closed low ",
            RowKind::ClosedHigh => b"closed high ",
            RowKind::Stuck => b"closed stuck ",
            RowKind::Solved => b"solved ",
            RowKind::Left => b"left ",
        }
    }
}

impl Worded for Tail {
    ghost word = { tail_word };

    fn word(&self) -> &'static [u8]
        ensures { result.now ≡ tail_word self.now }
    {
        match self {
            Tail::End => b"\n",
            Tail::High => b" high ",
        }
    }
}

/// A carrier, and a step or stage.
#[tactic(auto, unfolding(crate::specs::Lines::pair_at))]
fn pair(bytes: &[u8]) -> Result<((u32, u32), &[u8]), Stop>
    ensures { Gives (λ x. (x.0, x.1.now)) result (pair_at bytes.now) }
{
    let (c, rest) = number(0, MOST_CARRIER, bytes)?;
    let rest = word(b" ", rest)?;
    let (k, rest) = number(0, MOST_STAGE, rest)?;
    Ok(((c, k), rest))
}

/// What stands behind a constraint's letter.
#[tactic(auto, unfolding(crate::specs::Lines::token_rest))]
fn token_of(kind: TokenKind, bytes: &[u8]) -> Result<(Constraint, &[u8]), Stop>
    ensures { Gives (λ x. (x.0, x.1.now)) result (token_rest kind bytes.now) }
{
    match kind {
        TokenKind::Min => {
            let ((c, k), rest) = pair(bytes)?;
            Ok((Constraint::Min { c, k }, rest))
        }
        TokenKind::Max => {
            let ((c, k), rest) = pair(bytes)?;
            Ok((Constraint::Max { c, k }, rest))
        }
        TokenKind::Entry => {
            let (c, rest) = number(0, MOST_CARRIER, bytes)?;
            Ok((Constraint::Entry { c }, rest))
        }
        TokenKind::Visit => {
            let ((c, k), rest) = pair(bytes)?;
            Ok((Constraint::Visit { c, k }, rest))
        }
        TokenKind::Repeat => {
            let ((c, k), rest) = pair(bytes)?;
            Ok((Constraint::Repeat { c, k }, rest))
        }
        TokenKind::Decided => {
            let (i, rest) = number(0, MOST_DECISION, bytes)?;
            Ok((Constraint::Decided { i }, rest))
        }
    }
}

/// A constraint.
#[tactic(auto, unfolding(crate::specs::Lines::token_at))]
fn token(bytes: &[u8]) -> Result<(Constraint, &[u8]), Stop>
    ensures { Gives (λ x. (x.0, x.1.now)) result (token_at bytes.now) }
{
    let kinds = [
        TokenKind::Min,
        TokenKind::Max,
        TokenKind::Entry,
        TokenKind::Visit,
        TokenKind::Repeat,
        TokenKind::Decided,
    ];
    let (kind, rest) = kind(&kinds, bytes)?;
    token_of(kind, rest)
}

/// So many constraints.
fn tokens(alloc: Global, count: u32, bytes: &[u8]) -> Result<(Vec<Constraint>, &[u8]), Stop>
    ensures { Gives (λ x. (x.0.items, x.1.now)) result (items_at (λ i. token_at) 0 count bytes.now) }
{
    let mut items = Vec::with_capacity(alloc, count as usize)?;
    let mut rest = bytes;
    for i in 0..count {
        let (item, after) = token(rest)?;
        items.push(item)?;
        rest = after;
    }
    Ok((items, rest))
}

/// A walk: how many constraints it has, and each of them.
#[tactic(auto, unfolding(crate::specs::Lines::walk_at))]
fn walk(alloc: Global, bytes: &[u8]) -> Result<(Proof, &[u8]), Stop>
    ensures { Gives (λ x. (x.0, x.1.now)) result (walk_at bytes.now) }
{
    let (count, rest) = number(1, MOST_TOKENS, bytes)?;
    let (items, rest) = tokens(alloc, count, rest)?;
    Ok((Proof::from_vec(items), rest))
}

/// A walk, and the end of the line.
#[tactic(auto, unfolding(crate::specs::Lines::walk_line_at))]
fn walk_line(alloc: Global, bytes: &[u8]) -> Result<(Proof, &[u8]), Stop>
    ensures { Gives (λ x. (x.0, x.1.now)) result (walk_line_at bytes.now) }
{
    let (walk, rest) = walk(alloc, bytes)?;
    let rest = word(b"\n", rest)?;
    Ok((walk, rest))
}

/// A pair and how many children follow, to the end of the line.
#[tactic(auto, unfolding(crate::specs::Lines::counted_at))]
fn counted(bytes: &[u8]) -> Result<(((u32, u32), u32), &[u8]), Stop>
    ensures { Gives (λ x. (x.0, x.1.now)) result (counted_at bytes.now) }
{
    let (named, rest) = pair(bytes)?;
    let rest = word(b" ", rest)?;
    let (children, rest) = number(0, MOST_CHILDREN, rest)?;
    let rest = word(b"\n", rest)?;
    Ok(((named, children), rest))
}

/// Two pairs and how many periods later the second is, to the end of the line.
#[tactic(auto, unfolding(crate::specs::Lines::order_at))]
fn order(bytes: &[u8]) -> Result<((((u32, u32), (u32, u32)), i64), &[u8]), Stop>
    ensures { Gives (λ x. (x.0, x.1.now)) result (order_at bytes.now) }
{
    let (a, rest) = pair(bytes)?;
    let rest = word(b" ", rest)?;
    let (b, rest) = pair(rest)?;
    let rest = word(b" ", rest)?;
    let (q, rest) = signed(MOST_SHIFT, rest)?;
    let rest = word(b"\n", rest)?;
    Ok((((a, b), q), rest))
}

/// What stands behind a kind of tail.
#[tactic(auto, unfolding(crate::specs::Lines::tail_rest))]
fn tail_of(alloc: Global, tail: Tail, bytes: &[u8]) -> Result<(Option<Proof>, &[u8]), Stop>
    ensures { Gives (λ x. (x.0, x.1.now)) result (tail_rest tail bytes.now) }
{
    match tail {
        Tail::End => Ok((None, bytes)),
        Tail::High => {
            let (walk, rest) = walk_line(alloc, bytes)?;
            Ok((Some(walk), rest))
        }
    }
}

/// The end of the line, or a high walk before it.
#[tactic(auto, unfolding(crate::specs::Lines::tail_at))]
fn tail(alloc: Global, bytes: &[u8]) -> Result<(Option<Proof>, &[u8]), Stop>
    ensures { Gives (λ x. (x.0, x.1.now)) result (tail_at bytes.now) }
{
    let tails = [Tail::End, Tail::High];
    let (tail, rest) = kind(&tails, bytes)?;
    tail_of(alloc, tail, rest)
}

/// A stuck move; where every stage has one tank, its carrier is 0 and isn't named.
#[tactic(auto, unfolding(crate::specs::Lines::stuck_at))]
fn stuck(single: bool, bytes: &[u8]) -> Result<((u32, u32), &[u8]), Stop>
    ensures { Gives (λ x. (x.0, x.1.now)) result (stuck_at single bytes.now) }
{
    if single {
        let (step, rest) = number(0, MOST_STAGE, bytes)?;
        let rest = word(b"\n", rest)?;
        Ok(((0, step), rest))
    } else {
        let (named, rest) = pair(bytes)?;
        let rest = word(b"\n", rest)?;
        Ok((named, rest))
    }
}

/// The word none, or a walk, to the end of the line.
#[tactic(auto, unfolding(crate::specs::Lines::left_at))]
fn left(alloc: Global, bytes: &[u8]) -> Result<(Option<Proof>, &[u8]), Stop>
    ensures { Gives (λ x. (x.0, x.1.now)) result (left_at bytes.now) }
{
    match bytes {
        [b'n', ..] => {
            let rest = word(b"none\n", bytes)?;
            Ok((None, rest))
        }
        _ => {
            let (walk, rest) = walk_line(alloc, bytes)?;
            Ok((Some(walk), rest))
        }
    }
}

fn visit_id(named: (u32, u32)) -> VisitId
    ensures { (result.carrier ≡ named.0) × (result.stage ≡ named.1) }
{
    VisitId {
        carrier: named.0,
        stage: named.1,
    }
}

fn move_id(named: (u32, u32)) -> MoveId
    ensures { (result.carrier ≡ named.0) × (result.step ≡ named.1) }
{
    MoveId {
        carrier: named.0,
        step: named.1,
    }
}

/// What stands behind the words that begin a line.
#[tactic(auto, unfolding(crate::specs::Lines::row_rest))]
fn row_of(alloc: Global, single: bool, kind: RowKind, bytes: &[u8]) -> Result<(Row, &[u8]), Stop>
    ensures { Gives (λ x. (x.0, x.1.now)) result (row_rest single kind bytes.now) }
{
    match kind {
        RowKind::Choose => {
            let ((v, children), rest) = counted(bytes)?;
            let v = visit_id(v);
            Ok((Row::Choose { v, children }, rest))
        }
        RowKind::TankOrder => {
            let (((a, b), q), rest) = order(bytes)?;
            let (a, b) = (visit_id(a), visit_id(b));
            Ok((Row::TankOrder { a, b, q }, rest))
        }
        RowKind::HoistOrder => {
            let (((a, b), q), rest) = order(bytes)?;
            let (a, b) = (move_id(a), move_id(b));
            Ok((Row::HoistOrder { a, b, q }, rest))
        }
        RowKind::Assign => {
            let ((m, children), rest) = counted(bytes)?;
            let m = move_id(m);
            Ok((Row::Assign { m, children }, rest))
        }
        RowKind::ClosedLow => {
            let (low, rest) = walk(alloc, bytes)?;
            let (high, rest) = tail(alloc, rest)?;
            Ok((Row::ClosedLow { low, high }, rest))
        }
        RowKind::ClosedHigh => {
            let (high, rest) = walk_line(alloc, bytes)?;
            Ok((Row::ClosedHigh { high }, rest))
        }
        RowKind::Stuck => {
            let (m, rest) = stuck(single, bytes)?;
            let m = move_id(m);
            Ok((Row::Stuck { m }, rest))
        }
        RowKind::Solved => {
            let (low, rest) = walk_line(alloc, bytes)?;
            Ok((Row::Solved { low }, rest))
        }
        RowKind::Left => {
            let (low, rest) = left(alloc, bytes)?;
            Ok((Row::Left { low }, rest))
        }
    }
}

const SINGLE_KINDS: [RowKind; 8] = [
    RowKind::TankOrder,
    RowKind::HoistOrder,
    RowKind::Assign,
    RowKind::ClosedLow,
    RowKind::ClosedHigh,
    RowKind::Stuck,
    RowKind::Solved,
    RowKind::Left,
];

const ALL_KINDS: [RowKind; 9] = [
    RowKind::Choose,
    RowKind::TankOrder,
    RowKind::HoistOrder,
    RowKind::Assign,
    RowKind::ClosedLow,
    RowKind::ClosedHigh,
    RowKind::Stuck,
    RowKind::Solved,
    RowKind::Left,
];

/// The kinds of line: where every stage has one tank, none is chosen.
fn row_kind(single: bool, bytes: &[u8]) -> Result<(RowKind, &[u8]), Stop>
    ensures { Gives (λ x. (x.0, x.1.now)) result (kind_at row_word (row_kinds single) bytes.now) }
{
    if single {
        kind(&SINGLE_KINDS, bytes)
    } else {
        kind(&ALL_KINDS, bytes)
    }
}

/// A line of the tree.
#[tactic(auto, unfolding(crate::specs::Lines::row_at))]
pub(crate) fn row(alloc: Global, single: bool, bytes: &[u8]) -> Result<(Row, &[u8]), Stop>
    ensures { Gives (λ x. (x.0, x.1.now)) result (row_at single bytes.now) }
{
    let (kind, rest) = row_kind(single, bytes)?;
    row_of(alloc, single, kind, rest)
}

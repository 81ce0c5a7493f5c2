// The decisions of a path in words.
ghost use Rattle.std.specs.Prelude.{◌≡◌, ◌<◌, ◌++◌, codes, length, get_or, OnOk, IfOk};
ghost use Rattle.hoist_base.specs.LineData.{IsMove, IsStageOf};
ghost use Rattle.hoist_base.specs.LineData as lines;
ghost use Rattle.hoist_base.specs.Valid.{IsLine};
ghost use Rattle.path_constraints.specs.Questions.{FitsPath};
ghost use Rattle.path_constraints.specs.Hoists.{hoist_below};
ghost use Rattle.path_constraints.specs.Tanks.{decision_at};
ghost use Rattle.report_reason.specs.Decisions as words;

use choice_tree::{Decision, Question};
use hoist_base::{Line, MoveId, VisitId};
use markup::{Element, Key, Tag};
use path_constraints::hoist_below;
use std::alloc::{AllocError, Global};
use text_writing::push_word_number;

/// Writes a word, a carrier, another word and a stage.
fn push_carrier(
    text: &mut Vec<u8>,
    word: &[u8],
    carrier: u32,
    between: &[u8],
    stage: u64,
) -> Result<(), AllocError>
    ensures { OnOk result (text.new.items ≡ text.old.items
        ++ words.carrier_words word.now carrier between.now stage) }
{
    push_word_number(text, word, carrier as u64)?;
    push_word_number(text, between, stage)
}

/// Writes a visit.
fn push_visit(text: &mut Vec<u8>, v: VisitId) -> Result<(), AllocError>
    ensures { OnOk result (text.new.items ≡ text.old.items ++ words.visit_words v) }
{
    push_carrier(text, b"carrier ", v.carrier, b" at stage ", v.stage as u64)
}

/// Writes a move.
fn push_move(text: &mut Vec<u8>, m: MoveId) -> Result<(), AllocError>
    ensures { OnOk result (text.new.items ≡ text.old.items ++ words.move_words m) }
{
    push_carrier(
        text,
        b"carrier ",
        m.carrier,
        b" to stage ",
        m.step as u64 + 1,
    )
}

/// Writes by how many periods the carrier of the second of an order comes later.
fn push_shift(text: &mut Vec<u8>, shift: i64) -> Result<(), AllocError>
    ensures { OnOk result (text.new.items ≡ text.old.items ++ words.shift_words shift) }
{
    let count = shift.unsigned_abs();
    if shift > 0 {
        return push_word_number(text, b", periods later: ", count);
    }
    if shift < 0 {
        return push_word_number(text, b", periods earlier: ", count);
    }
    Ok(())
}

/// A visit that may be by the carrier of another period.
fn visit_part(alloc: Global, v: VisitId, shift: i64) -> Result<Vec<u8>, AllocError>
    ensures { IfOk result (λ text. text.items ≡ words.visit_words v ++ words.shift_words shift) }
{
    let mut text = Vec::new(alloc);
    push_visit(&mut text, v)?;
    push_shift(&mut text, shift)?;
    Ok(text)
}

/// A move that may be by the carrier of another period.
fn move_part(alloc: Global, m: MoveId, shift: i64) -> Result<Vec<u8>, AllocError>
    ensures { IfOk result (λ text. text.items ≡ words.move_words m ++ words.shift_words shift) }
{
    let mut text = Vec::new(alloc);
    push_move(&mut text, m)?;
    push_shift(&mut text, shift)?;
    Ok(text)
}

/// Writes two things in the order that a child of an order takes.
fn push_order(text: &mut Vec<u8>, child: u32, first: &[u8], second: &[u8]) -> Result<(), AllocError>
    ensures { OnOk result (text.new.items ≡ text.old.items ++ words.order_words child first.now second.now) }
{
    let (before, after) = if child == 0 {
        (first, second)
    } else {
        (second, first)
    };
    text.extend_from_slice(before)?;
    text.extend_from_slice(b"; then ")?;
    text.extend_from_slice(after)
}

/// Two visits of a tank, in the order that a child takes.
fn tank_order(
    alloc: Global,
    a: VisitId,
    b: VisitId,
    q: i64,
    child: u32,
) -> Result<Vec<u8>, AllocError>
    ensures { IfOk result (λ text. text.items ≡ codes "in the tank: "
        ++ words.order_words child (words.visit_words a) (words.visit_words b ++ words.shift_words q)) }
{
    let first = visit_part(alloc, a, 0)?;
    let second = visit_part(alloc, b, q)?;
    let mut text = Vec::from_slice(alloc, b"in the tank: ")?;
    push_order(&mut text, child, first.as_slice(), second.as_slice())?;
    Ok(text)
}

/// Two moves of hoists that could collide, in the order that a child takes.
fn hoist_order(
    alloc: Global,
    a: MoveId,
    b: MoveId,
    q: i64,
    child: u32,
) -> Result<Vec<u8>, AllocError>
    ensures { IfOk result (λ text. text.items ≡ codes "on the track: "
        ++ words.order_words child (words.move_words a) (words.move_words b ++ words.shift_words q)) }
{
    let first = move_part(alloc, a, 0)?;
    let second = move_part(alloc, b, q)?;
    let mut text = Vec::from_slice(alloc, b"on the track: ")?;
    push_order(&mut text, child, first.as_slice(), second.as_slice())?;
    Ok(text)
}

/// Writes the hoist of a move, where it is known.
fn push_hoist(text: &mut Vec<u8>, hoist: Option<u32>) -> Result<(), AllocError>
    ensures { OnOk result (text.new.items ≡ text.old.items ++ words.hoist_words hoist) }
{
    match hoist {
        None => text.extend_from_slice(b"a hoist"),
        Some(hoist) => push_word_number(text, b"hoist ", hoist as u64),
    }
}

/// Which hoist makes a move.
fn assigned(alloc: Global, line: &Line, path: &[Decision], m: MoveId) -> Result<Vec<u8>, AllocError>
    requires fits { FitsPath line.now path.now }
    requires there { IsMove line.now m.carrier m.step }
    ensures { IfOk result (λ text. text.items ≡ words.hoist_words (hoist_below line.now path.now m.carrier m.step)
        ++ (codes " brings " ++ words.move_words m)) }
{
    let mut text = Vec::new(alloc);
    push_hoist(&mut text, hoist_below(line, path, m))?;
    text.extend_from_slice(b" brings ")?;
    push_move(&mut text, m)?;
    Ok(text)
}

/// The tank with a number in its stage's list.
fn listed(line: &Line, stage: u32, number: u32) -> u32
    requires stage { IsStageOf line.now stage }
    requires number { number < length (lines.stage line.now stage).tanks }
    ensures value { result ≡ get_or (lines.stage line.now stage).tanks number 0 }
    ensures valid { IsLine line.now }
{
    line.stages()[stage as usize].tanks.as_slice()[number as usize]
}

/// The name of the tank with a number in its stage's list.
#[tactic(auto, using(crate::proofs::Paths::tank_there))]
fn listed_name(line: &Line, stage: u32, number: u32) -> &[u8]
    requires stage { IsStageOf line.now stage }
    requires number { number < length (lines.stage line.now stage).tanks }
    ensures { result.now ≡ words.tank_name line.now stage number }
{
    let tank = listed(line, stage, number);
    name_of(line, tank)
}

/// A tank's name.
fn name_of(line: &Line, tank: u32) -> &[u8]
    requires { tank < length line.now.tanks }
    ensures { result.now ≡ (lines.tank line.now tank).name }
{
    line.tanks()[tank as usize].name.as_slice()
}

/// Which tank a visit uses.
fn chosen(alloc: Global, line: &Line, v: VisitId, child: u32) -> Result<Vec<u8>, AllocError>
    requires stage { IsStageOf line.now v.stage }
    requires child { child < length (lines.stage line.now v.stage).tanks }
    ensures { IfOk result (λ text. text.items ≡ words.tank_name line.now v.stage child
        ++ (codes " takes " ++ words.visit_words v)) }
{
    let mut text = Vec::from_slice(alloc, listed_name(line, v.stage, child))?;
    text.extend_from_slice(b" takes ")?;
    push_visit(&mut text, v)?;
    Ok(text)
}

/// A decision of the path in words.
fn decision_words(
    alloc: Global,
    line: &Line,
    path: &[Decision],
    decision: Decision,
) -> Result<Vec<u8>, AllocError>
    requires fits { FitsPath line.now path.now }
    requires answer { words.IsAnswer line.now decision.question decision.child }
    ensures { IfOk result (λ text. text.items ≡ words.decision_words line.now path.now decision) }
{
    let child = decision.child;
    match decision.question {
        Question::Assign { m } => assigned(alloc, line, path, m),
        Question::TankOrder { a, b, q } => tank_order(alloc, a, b, q, child),
        Question::HoistOrder { a, b, q } => hoist_order(alloc, a, b, q, child),
        Question::Choose { v } => chosen(alloc, line, v, child),
    }
}

/// Decision `i` of the path, as an item of a list.
#[tactic(auto, using(crate::proofs::Paths::answers))]
fn decision_item(
    alloc: Global,
    line: &Line,
    path: &[Decision],
    i: usize,
) -> Result<Element, AllocError>
    requires fits { FitsPath line.now path.now }
    requires there { i < length path.now }
    ensures { IfOk result (λ e. e ≡ words.decision_item line.now path.now (decision_at path.now i)) }
{
    let text = decision_words(alloc, line, path, path[i])?;
    Element::new(alloc, Tag::Item).saying(text.as_slice())
}

/// All decisions of a path, in their order.
pub(crate) fn decision_list(
    alloc: Global,
    line: &Line,
    path: &[Decision],
) -> Result<Element, AllocError>
    requires { FitsPath line.now path.now }
    ensures { IfOk result (λ e. e ≡ words.decision_list line.now path.now) }
{
    let mut list = Element::new(alloc, Tag::List).having(Key::Class, b"choices")?;
    for i in 0..path.len() {
        let item = decision_item(alloc, line, path, i)?;
        list = list.holding(&item)?;
    }
    Ok(list)
}

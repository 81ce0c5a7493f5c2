// What decisions on an order ask, in words.
ghost use Rattle.std.specs.Prelude.{◌≡◌, ◌≤◌, ◌<◌, ◌++◌, OnOk, unsigned_abs};
ghost use Rattle.hoist_base.specs.LineData.{IsMove, IsVisit};
ghost use Rattle.path_constraints.specs.Questions.{FitsPath};
ghost use Rattle.path_constraints.specs.Places.{NamesOrder};
ghost use Rattle.walk_words.specs.Steps as words;

use crate::places::{push_carrier, push_later, push_place};
use choice_tree::{Decision, Question};
use hoist_base::{Line, MoveId, VisitId};
use std::alloc::AllocError;
use text_writing::push_word_number;

/// Writes that one visit of a tank comes before another one, that so many periods later.
fn push_tank(
    text: &mut Vec<u8>,
    line: &Line,
    path: &[Decision],
    first: VisitId,
    second: VisitId,
    q: i64,
) -> Result<(), AllocError>
    requires fits { FitsPath line.now path.now }
    requires there { IsVisit line.now first.carrier first.stage }
    ensures { OnOk result (text.new.items ≡ text.old.items
        ++ words.tank_text line.now path.now first.carrier first.stage second.carrier second.stage q) }
{
    push_place(text, line, path, first)?;
    text.extend_from_slice(b" is left by ")?;
    push_carrier(text, first.carrier)?;
    push_word_number(text, b" at stage ", first.stage as u64)?;
    text.extend_from_slice(b" before ")?;
    push_carrier(text, second.carrier)?;
    push_word_number(text, b" comes there at stage ", second.stage as u64)?;
    push_later(text, q)
}

/// Writes that one move goes before another one, that so many periods later.
fn push_hoist(
    text: &mut Vec<u8>,
    line: &Line,
    path: &[Decision],
    first: MoveId,
    second: MoveId,
    q: i64,
) -> Result<(), AllocError>
    requires fits { FitsPath line.now path.now }
    requires first { IsMove line.now first.carrier first.step }
    requires second { IsMove line.now second.carrier second.step }
    ensures { OnOk result (text.new.items ≡ text.old.items
        ++ words.hoist_text line.now path.now first.carrier first.step second.carrier second.step q) }
{
    text.extend_from_slice(b"so that no hoists collide, ")?;
    push_lifted(text, line, path, first)?;
    text.extend_from_slice(b" before ")?;
    push_lifted(text, line, path, second)?;
    push_later(text, q)
}

/// Writes that a carrier is lifted where a move begins.
fn push_lifted(
    text: &mut Vec<u8>,
    line: &Line,
    path: &[Decision],
    m: MoveId,
) -> Result<(), AllocError>
    requires fits { FitsPath line.now path.now }
    requires there { IsMove line.now m.carrier m.step }
    ensures { OnOk result (text.new.items ≡ text.old.items
        ++ words.lifted_text line.now path.now m.carrier m.step) }
{
    let carrier = m.carrier;
    push_carrier(text, carrier)?;
    text.extend_from_slice(b" is lifted at ")?;
    push_place(
        text,
        line,
        path,
        VisitId {
            carrier,
            stage: m.step,
        },
    )
}

/// Writes what a decision on an order asks; a choice asks nothing.
pub(crate) fn push_decided(
    text: &mut Vec<u8>,
    line: &Line,
    path: &[Decision],
    decision: Decision,
) -> Result<(), AllocError>
    requires fits { FitsPath line.now path.now }
    requires order { NamesOrder line.now decision.question }
    ensures { OnOk result (text.new.items ≡ text.old.items
        ++ words.decided_text line.now path.now decision.question decision.child) }
{
    let first = decision.child == 0;
    match decision.question {
        Question::TankOrder { a, b, q } if first => push_tank(text, line, path, a, b, q),
        Question::TankOrder { a, b, q } => push_tank(text, line, path, b, a, -q),
        Question::HoistOrder { a, b, q } if first => push_hoist(text, line, path, a, b, q),
        Question::HoistOrder { a, b, q } => push_hoist(text, line, path, b, a, -q),
        _ => Ok(()),
    }
}

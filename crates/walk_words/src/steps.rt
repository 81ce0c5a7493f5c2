// Constraints in words.
ghost use Rattle.std.specs.Prelude.{◌≡◌, ◌≤◌, ◌<◌, ◌+◌, ◌==◌, ◌++◌, unwrap_or, OnOk, IfOk};
ghost use Rattle.hoist_base.specs.LineData.{stage, last_stage, last_step, IsVisit, IsStageOf};
ghost use Rattle.hoist_base.specs.Valid.{IsLine};
ghost use Rattle.path_constraints.specs.Questions.{FitsPath};
ghost use Rattle.path_constraints.specs.Constraints.{IsConstraint};
ghost use Rattle.walk_words.specs.Steps as words;

use crate::orders::push_decided;
use crate::places::{push_carrier, push_place};
use choice_tree::{Constraint, Decision};
use hoist_base::{Line, VisitId};
use std::alloc::{AllocError, Global};
use text_writing::push_word_number;

/// Writes that a carrier is brought to a stage and stays there.
fn push_stay(
    text: &mut Vec<u8>,
    line: &Line,
    path: &[Decision],
    v: VisitId,
) -> Result<(), AllocError>
    requires fits { FitsPath line.now path.now }
    requires there { IsVisit line.now v.carrier v.stage }
    ensures { OnOk result (text.new.items ≡ text.old.items ++ words.stay_text line.now path.now v.carrier v.stage) }
{
    push_carrier(text, v.carrier)?;
    text.extend_from_slice(b" is brought to ")?;
    push_place(text, line, path, v)?;
    text.extend_from_slice(b" and stays there for at ")
}

/// The least dwell of a stage.
fn min_of(line: &Line, k: u32) -> u64
    requires { IsStageOf line.now k }
    ensures { result ≡ (stage line.now k).min }
{
    line.stages()[k as usize].min as u64
}

/// The greatest dwell of a stage, or 0 where it has none.
fn max_of(line: &Line, k: u32) -> u64
    requires { IsStageOf line.now k }
    ensures { result ≡ unwrap_or (stage line.now k).max 0 }
{
    line.stages()[k as usize].max.unwrap_or(0) as u64
}

/// How long a carrier is lifted at a stage.
fn lift_of(line: &Line, k: u32) -> u64
    requires { IsStageOf line.now k }
    ensures { result ≡ (stage line.now k).lift }
{
    line.stages()[k as usize].lift as u64
}

/// How long a carrier is lowered at a stage.
fn lower_of(line: &Line, k: u32) -> u64
    requires { IsStageOf line.now k }
    ensures { result ≡ (stage line.now k).lower }
{
    line.stages()[k as usize].lower as u64
}

/// Writes the least dwell.
fn push_min(
    text: &mut Vec<u8>,
    line: &Line,
    path: &[Decision],
    v: VisitId,
) -> Result<(), AllocError>
    requires fits { FitsPath line.now path.now }
    requires there { IsVisit line.now v.carrier v.stage }
    ensures { OnOk result (text.new.items ≡ text.old.items ++ words.min_text line.now path.now v.carrier v.stage) }
{
    push_stay(text, line, path, v)?;
    push_word_number(text, b"least ", min_of(line, v.stage))
}

/// Writes the greatest dwell.
fn push_max(
    text: &mut Vec<u8>,
    line: &Line,
    path: &[Decision],
    v: VisitId,
) -> Result<(), AllocError>
    requires fits { FitsPath line.now path.now }
    requires there { IsVisit line.now v.carrier v.stage }
    ensures { OnOk result (text.new.items ≡ text.old.items ++ words.max_text line.now path.now v.carrier v.stage) }
{
    push_stay(text, line, path, v)?;
    push_word_number(text, b"most ", max_of(line, v.stage))
}

/// Whether a carrier is the last one that enters in a period.
fn is_last_carrier(line: &Line, carrier: u32) -> bool
    requires { carrier < line.now.degree }
    ensures value { result ≡ (carrier + 1 == line.now.degree) }
    ensures valid { IsLine line.now }
{
    let degree = line.degree();
    carrier + 1 == degree
}

/// Whether a stage is the unload's.
fn is_last_stage(line: &Line, stage: u32) -> bool
    ensures { result ≡ (stage == last_stage line.now) }
{
    stage == line.inner() + 1
}

/// Writes the carrier that is put on after another one.
fn push_next(text: &mut Vec<u8>, line: &Line, carrier: u32) -> Result<(), AllocError>
    requires { carrier < line.now.degree }
    ensures { OnOk result (text.new.items ≡ text.old.items ++ words.next_text line.now carrier) }
{
    if is_last_carrier(line, carrier) {
        text.extend_from_slice(b"carrier 0 of the next period")
    } else {
        push_carrier(text, carrier + 1)
    }
}

/// Writes that the next carrier is put on when this one has been lifted.
fn push_entry(
    text: &mut Vec<u8>,
    line: &Line,
    path: &[Decision],
    carrier: u32,
) -> Result<(), AllocError>
    requires fits { FitsPath line.now path.now }
    requires there { carrier < line.now.degree }
    ensures { OnOk result (text.new.items ≡ text.old.items ++ words.entry_text line.now path.now carrier) }
{
    let load = line.load() as u64;
    push_carrier(text, carrier)?;
    text.extend_from_slice(b" is lifted off ")?;
    push_place(text, line, path, VisitId { carrier, stage: 0 })?;
    push_word_number(text, b" in ", lift_of(line, 0))?;
    text.extend_from_slice(b", then ")?;
    push_next(text, line, carrier)?;
    push_word_number(text, b" is put on and stays for at least ", load)
}

/// Writes that a carrier is lowered at the unload station and taken off.
fn push_off(text: &mut Vec<u8>, line: &Line, stage: u32) -> Result<(), AllocError>
    requires { IsStageOf line.now stage }
    ensures { OnOk result (text.new.items ≡ text.old.items ++ words.off_text line.now stage) }
{
    let unload = line.unload() as u64;
    push_word_number(text, b" is lowered in ", lower_of(line, stage))?;
    push_word_number(text, b" and stays for at least ", unload)
}

/// Writes that a carrier is lifted out of a tank, and the next one is lowered into it.
fn push_swap(text: &mut Vec<u8>, line: &Line, stage: u32) -> Result<(), AllocError>
    requires { IsStageOf line.now stage }
    ensures { OnOk result (text.new.items ≡ text.old.items ++ words.swap_text line.now stage) }
{
    push_word_number(text, b" is lifted out in ", lift_of(line, stage))?;
    push_word_number(
        text,
        b", the next one is lowered in ",
        lower_of(line, stage),
    )
}

/// Writes what comes before the tank of a stage is free.
fn push_leaving(text: &mut Vec<u8>, line: &Line, stage: u32) -> Result<(), AllocError>
    requires { IsStageOf line.now stage }
    ensures { OnOk result (text.new.items ≡ text.old.items ++ words.leaving_text line.now stage) }
{
    if is_last_stage(line, stage) {
        push_off(text, line, stage)
    } else {
        push_swap(text, line, stage)
    }
}

/// Writes that a tank is free again one period later.
fn push_visit(
    text: &mut Vec<u8>,
    line: &Line,
    path: &[Decision],
    v: VisitId,
) -> Result<(), AllocError>
    requires fits { FitsPath line.now path.now }
    requires there { IsVisit line.now v.carrier v.stage }
    ensures { OnOk result (text.new.items ≡ text.old.items ++ words.visit_text line.now path.now v.carrier v.stage) }
{
    push_place(text, line, path, v)?;
    text.extend_from_slice(b" is free again one period later: ")?;
    push_carrier(text, v.carrier)?;
    push_leaving(text, line, v.stage)
}

/// Writes that the hoist of a move is back one period later.
fn push_repeat(
    text: &mut Vec<u8>,
    line: &Line,
    path: &[Decision],
    carrier: u32,
    step: u32,
) -> Result<(), AllocError>
    requires fits { FitsPath line.now path.now }
    requires there { (carrier < line.now.degree) × (step ≤ last_step line.now) }
    ensures { OnOk result (text.new.items ≡ text.old.items ++ words.repeat_text line.now path.now carrier step) }
{
    let inner = line.inner();
    prove!(step <= inner);
    let from = VisitId {
        carrier,
        stage: step,
    };
    let to = VisitId {
        carrier,
        stage: step + 1,
    };
    text.extend_from_slice(b"the hoist that brings ")?;
    push_carrier(text, carrier)?;
    text.extend_from_slice(b" from ")?;
    push_place(text, line, path, from)?;
    text.extend_from_slice(b" to ")?;
    push_place(text, line, path, to)?;
    text.extend_from_slice(b" is back where it began one period later")
}

/// Writes a constraint of the path.
fn push_step(
    text: &mut Vec<u8>,
    line: &Line,
    path: &[Decision],
    name: Constraint,
) -> Result<(), AllocError>
    requires fits { FitsPath line.now path.now }
    requires named { IsConstraint line.now path.now name }
    ensures { OnOk result (text.new.items ≡ text.old.items ++ words.step_text line.now path.now name) }
{
    match name {
        Constraint::Min { c, k } => push_min(
            text,
            line,
            path,
            VisitId {
                carrier: c,
                stage: k,
            },
        ),
        Constraint::Max { c, k } => push_max(
            text,
            line,
            path,
            VisitId {
                carrier: c,
                stage: k,
            },
        ),
        Constraint::Entry { c } => push_entry(text, line, path, c),
        Constraint::Visit { c, k } => push_visit(
            text,
            line,
            path,
            VisitId {
                carrier: c,
                stage: k,
            },
        ),
        Constraint::Repeat { c, k } => push_repeat(text, line, path, c, k),
        Constraint::Decided { i } => push_decided(text, line, path, path[i as usize]),
    }
}

/// A constraint of the path in words: who is where, with the dwells and the times of lifting and lowering in ticks, and
/// how many periods later, where it isn't the same period. A tank goes by its name; where the path leaves a visit
/// several tanks, all of them are named.
pub fn step_words(
    alloc: Global,
    line: &Line,
    path: &[Decision],
    name: Constraint,
) -> Result<Vec<u8>, AllocError>
    requires fits { FitsPath line.now path.now }
    requires named { IsConstraint line.now path.now name }
    ensures { IfOk result (λ text. text.items ≡ words.step_text line.now path.now name) }
{
    let mut text = Vec::new(alloc);
    push_step(&mut text, line, path, name)?;
    Ok(text)
}

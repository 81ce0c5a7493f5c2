// Names and numbers beside the plot.
ghost use Rattle.std.specs.Prelude.{◌≡◌, ◌<◌, ◌≤◌, ◌==◌, ◌++◌, codes, length, OnOk, IfOk};
ghost use Rattle.std.specs.List.{list_any};
ghost use Rattle.hoist_base.specs.LineData.{IsStageOf};
ghost use Rattle.hoist_base.specs.LineData as lines;
ghost use Rattle.timeway.specs.Diagram as diagrams;

use crate::scales::{MARGIN, grid_step, pixel_of, plot_height, tick_pixel};
use hoist_base::Line;
use markup::{Element, Key, Tag};
use std::alloc::{AllocError, Global};
use text_writing::{push_number, push_word_number};

/// Words of a class at a place in pixels.
fn note(alloc: Global, class: &[u8], x: u64, y: u64, words: &[u8]) -> Result<Element, AllocError>
    ensures { IfOk result (λ e. e ≡ diagrams.note class.now x y words.now) }
{
    Element::new(alloc, Tag::Text)
        .having(Key::Class, class)?
        .having_number(Key::X, x)?
        .having_number(Key::Y, y)?
        .saying(words)
}

/// A tank's name and its stages, beside its position.
pub(crate) fn tank_note(alloc: Global, line: &Line, tank: u32) -> Result<Element, AllocError>
    requires { tank < length line.now.tanks }
    ensures { IfOk result (λ e. e ≡ diagrams.tank_note line.now tank) }
{
    let words = tank_words(alloc, line, tank)?;
    let y = pixel_of(line, line.at(tank)) + 4;
    note(alloc, b"name", MARGIN - 8, y, words.as_slice())
}

/// A tank's name and the numbers of its stages.
#[tactic(auto, using(markup::proofs::Trees::one_more))]
fn tank_words(alloc: Global, line: &Line, tank: u32) -> Result<Vec<u8>, AllocError>
    requires { tank < length line.now.tanks }
    ensures { IfOk result (λ text. text.items ≡ diagrams.tank_words line.now tank) }
{
    let mut text = tank_start(alloc, line, tank)?;
    for k in 0..line.stages().len() as u32 {
        push_stage(&mut text, line, tank, k)?;
    }
    Ok(text)
}

/// A tank's name and a colon.
fn tank_start(alloc: Global, line: &Line, tank: u32) -> Result<Vec<u8>, AllocError>
    requires { tank < length line.now.tanks }
    ensures { IfOk result (λ text. text.items ≡ (lines.tank line.now tank).name ++ codes ":") }
{
    let name = &line.tanks()[tank as usize].name;
    let mut text = Vec::from_slice(alloc, name.as_slice())?;
    text.extend_from_slice(b":")?;
    Ok(text)
}

/// Writes the number of a stage, where a tank is one of its.
fn push_stage(text: &mut Vec<u8>, line: &Line, tank: u32, k: u32) -> Result<(), AllocError>
    requires { IsStageOf line.now k }
    ensures { OnOk result (text.new.items ≡ text.old.items ++ diagrams.stage_word line.now tank k) }
{
    if serves(line, tank, k) {
        push_word_number(text, b" ", k as u64)?;
    }
    Ok(())
}

/// Whether a tank is one of a stage.
fn serves(line: &Line, tank: u32, k: u32) -> bool
    requires { IsStageOf line.now k }
    ensures { result ≡ list_any (λ j. tank == j) (lines.stage line.now k).tanks }
{
    line.stages()[k as usize].tanks.as_slice().contains(&tank)
}

/// The number of a mark of the scale, below it.
pub(crate) fn tick_note(
    alloc: Global,
    line: &Line,
    period: u32,
    i: u32,
) -> Result<Element, AllocError>
    requires some { 1 ≤ period }
    requires small { period ≤ 20000 }
    requires mark { i ≤ 40001 }
    ensures { IfOk result (λ e. e ≡ diagrams.tick_note line.now period i) }
{
    let tick = i * grid_step(period);
    let mut words = Vec::new(alloc);
    push_number(&mut words, tick as u64)?;
    let x = tick_pixel(line, period, tick);
    note(alloc, b"tick", x, plot_height(line) + 14, words.as_slice())
}

// Tanks by name, and carriers.
ghost use Rattle.std.specs.Prelude.{◌≡◌, ◌<◌, ◌++◌, codes, length, OnOk, All};
ghost use Rattle.std.specs.List.{flat_map};
ghost use Rattle.hoist_base.specs.LineData.{IsVisit};
ghost use Rattle.hoist_base.specs.LineData as lines;
ghost use Rattle.path_constraints.specs.Questions.{FitsPath};
ghost use Rattle.walk_words.specs.Places as places;

use choice_tree::Decision;
use hoist_base::{Line, VisitId};
use path_constraints::tanks_below;
use std::alloc::AllocError;
use text_writing::{push_number, push_word_number};

/// Writes the name of a tank.
fn push_name(text: &mut Vec<u8>, line: &Line, tank: u32) -> Result<(), AllocError>
    requires { tank < length line.now.tanks }
    ensures { OnOk result (text.new.items ≡ text.old.items ++ (lines.tank line.now tank).name) }
{
    text.extend_from_slice(line.tanks()[tank as usize].name.as_slice())
}

/// Writes one more tank that may serve.
fn push_or_name(text: &mut Vec<u8>, line: &Line, tank: u32) -> Result<(), AllocError>
    requires { tank < length line.now.tanks }
    ensures { OnOk result (text.new.items ≡ text.old.items ++ places.or_name line.now tank) }
{
    text.extend_from_slice(b" or ")?;
    push_name(text, line, tank)
}

/// Writes more tanks that may serve.
fn push_or_names(text: &mut Vec<u8>, line: &Line, tanks: &[u32]) -> Result<(), AllocError>
    requires there { All (λ i. i < length line.now.tanks) tanks.now }
    ensures { OnOk result (text.new.items ≡ text.old.items ++ flat_map (places.or_name line.now) tanks.now) }
{
    for &tank in tanks {
        push_or_name(text, line, tank)?;
    }
    Ok(())
}

/// Writes tanks of which one serves.
fn push_names(text: &mut Vec<u8>, line: &Line, tanks: &[u32]) -> Result<(), AllocError>
    requires there { All (λ i. i < length line.now.tanks) tanks.now }
    ensures { OnOk result (text.new.items ≡ text.old.items ++ places.names line.now tanks.now) }
{
    let [first, others @ ..] = tanks else {
        return Ok(());
    };
    push_name(text, line, *first)?;
    push_or_names(text, line, others)
}

/// Writes the tanks that the path leaves open to a visit.
pub(crate) fn push_place(
    text: &mut Vec<u8>,
    line: &Line,
    path: &[Decision],
    v: VisitId,
) -> Result<(), AllocError>
    requires fits { FitsPath line.now path.now }
    requires there { IsVisit line.now v.carrier v.stage }
    ensures { OnOk result (text.new.items ≡ text.old.items ++ places.place line.now path.now v.carrier v.stage) }
{
    push_names(text, line, tanks_below(line, path, v))
}

/// Writes a carrier.
pub(crate) fn push_carrier(text: &mut Vec<u8>, carrier: u32) -> Result<(), AllocError>
    ensures { OnOk result (text.new.items ≡ text.old.items ++ places.carrier_text carrier) }
{
    push_word_number(text, b"carrier ", carrier as u64)
}

/// Writes a number of periods.
fn push_count(text: &mut Vec<u8>, count: u64) -> Result<(), AllocError>
    ensures { OnOk result (text.new.items ≡ text.old.items ++ places.count_text count) }
{
    push_number(text, count)?;
    if count == 1 {
        text.extend_from_slice(b" period")
    } else {
        text.extend_from_slice(b" periods")
    }
}

/// Writes a number of periods that may be negative.
pub(crate) fn push_signed_count(text: &mut Vec<u8>, q: i64) -> Result<(), AllocError>
    ensures { OnOk result (text.new.items ≡ text.old.items ++ places.signed_count_text q) }
{
    let count = q.unsigned_abs();
    if q < 0 {
        text.extend_from_slice(b"-")?;
    }
    push_count(text, count)
}

/// Writes that it is another period, so many later or earlier.
fn push_shift(text: &mut Vec<u8>, count: u64, word: &[u8]) -> Result<(), AllocError>
    ensures { OnOk result (text.new.items ≡ text.old.items
        ++ (codes ", " ++ (places.count_text count ++ word.now))) }
{
    text.extend_from_slice(b", ")?;
    push_count(text, count)?;
    text.extend_from_slice(word)
}

/// Writes how many periods later or earlier it is, where it isn't the same period.
pub(crate) fn push_later(text: &mut Vec<u8>, q: i64) -> Result<(), AllocError>
    ensures { OnOk result (text.new.items ≡ text.old.items ++ places.later_text q) }
{
    let count = q.unsigned_abs();
    if q > 0 {
        return push_shift(text, count, b" later");
    }
    if q < 0 {
        return push_shift(text, count, b" earlier");
    }
    Ok(())
}

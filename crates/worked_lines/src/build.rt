// Lines from rows of numbers.
ghost use Rattle.std.specs.Prelude.{◌≡◌, ℕ, length, IfSome, IfOk, None};
ghost use Rattle.worked_lines.specs.Sizes.{HasSizes};

use hoist_base::{Line, LineParts, Name, Stage, Tank, Tanks};
use std::alloc::{AllocError, Global};

/// The numbers of a line itself, named and measured as those of `LineParts`.
#[derive(Clone, Copy, Debug)]
pub struct Numbers {
    pub track: u32,
    pub gap: u32,
    pub hoists: u32,
    pub degree: u32,
    pub max_period: u32,
    pub load: u32,
    pub unload: u32,
}

/// A stage as numbers: those of its tanks, counted from 0, and its times in ticks.
#[derive(Clone, Copy)]
pub struct Row<'a> {
    pub tanks: &'a [u32],
    pub min: u32,
    pub max: Option<u32>,
    pub lift: u32,
    pub lower: u32,
}

/// The load, with the ticks of a lift out of it.
pub(crate) fn load(tanks: &[u32], lift: u32) -> Row<'_>
    ensures tanks { result.tanks.now ≡ tanks.now }
    ensures window { (result.min ≡ 0) × (result.max ≡ None) }
    ensures times { (result.lift ≡ lift) × (result.lower ≡ 0) }
{
    Row {
        tanks,
        min: 0,
        max: None,
        lift,
        lower: 0,
    }
}

/// The unload, with the ticks of a lower into it.
pub(crate) fn unload(tanks: &[u32], lower: u32) -> Row<'_>
    ensures tanks { result.tanks.now ≡ tanks.now }
    ensures window { (result.min ≡ 0) × (result.max ≡ None) }
    ensures times { (result.lift ≡ 0) × (result.lower ≡ lower) }
{
    Row {
        tanks,
        min: 0,
        max: None,
        lift: 0,
        lower,
    }
}

/// A stage between them.
pub(crate) fn inner(tanks: &[u32], min: u32, max: Option<u32>, lift: u32, lower: u32) -> Row<'_>
    ensures tanks { result.tanks.now ≡ tanks.now }
    ensures window { (result.min ≡ min) × (result.max ≡ max) }
    ensures times { (result.lift ≡ lift) × (result.lower ≡ lower) }
{
    Row {
        tanks,
        min,
        max,
        lift,
        lower,
    }
}

/// The line of these numbers, names and places of tanks, and stages; None where they make no line or there is no
/// memory.
pub fn line_of_rows(
    alloc: Global,
    numbers: Numbers,
    tanks: &[(&str, u32)],
    rows: &[Row],
) -> Option<Line>
    ensures { IfSome result (λ line. HasSizes line numbers (length tanks.now) (length rows.now)) }
{
    let Ok(tanks) = tanks_of(alloc, tanks) else {
        return None;
    };
    let Ok(stages) = stages_of(alloc, rows) else {
        return None;
    };
    let parts = LineParts {
        track: numbers.track,
        gap: numbers.gap,
        hoists: numbers.hoists,
        degree: numbers.degree,
        max_period: numbers.max_period,
        load: numbers.load,
        unload: numbers.unload,
        tanks,
        stages,
    };
    if !parts.is_valid() {
        return None;
    }
    Some(Line::new(parts))
}

fn tanks_of(alloc: Global, rows: &[(&str, u32)]) -> Result<Vec<Tank>, AllocError>
    ensures { IfOk result (λ tanks. length tanks.items ≡ length rows.now) }
{
    let mut tanks = Vec::new(alloc);
    for i in 0..rows.len() {
        let (name, at) = rows[i];
        let name = Name::from_vec(Vec::from_slice(alloc, name.as_bytes())?);
        tanks.push(Tank { name, at })?;
    }
    Ok(tanks)
}

fn stages_of(alloc: Global, rows: &[Row]) -> Result<Vec<Stage>, AllocError>
    ensures { IfOk result (λ stages. length stages.items ≡ length rows.now) }
{
    let mut stages = Vec::new(alloc);
    for k in 0..rows.len() {
        let row = rows[k];
        let tanks = Tanks::from_vec(Vec::from_slice(alloc, row.tanks)?);
        stages.push(Stage {
            tanks,
            min: row.min,
            max: row.max,
            lift: row.lift,
            lower: row.lower,
        })?;
    }
    Ok(stages)
}

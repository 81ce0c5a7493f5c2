// The line of a seed.
ghost use Rattle.std.specs.Prelude.{◌≡◌, ◌+◌, ◌*◌, ◌<◌, ◌≤◌, ◌==◌, if◌then◌else◌, None, Some, [], ◌∷◌, map, IfOk};
ghost use Rattle.std.specs.List.{range_with_len};
ghost use Rattle.hoist_base.specs.LineData.{IsSingle};
ghost use Rattle.hoist_base.specs.Valid.{IsLine};
ghost use Rattle.line_gen.specs.Generated as gen;

use crate::choices::Choices;
use hoist_base::{Line, LineParts, Name, Stage, Tank, Tanks};
use std::alloc::{AllocError, Global};

// The ticks of a lift and of a lower, and the units from one tank to the next.
const LIFT: u32 = 2;

const LOWER: u32 = 2;

const SPACING: u32 = 2;

#[tactic(auto, using(crate::proofs::ValidLaws::generated_line))]
/// The line of a seed: 8 to 12 baths in a row between the load and the unload, with one or two hoists, where the last
/// bath may be in the tank of the first. The windows of the baths are drawn too. The same seed always gives the same
/// line.
pub fn line_of(alloc: Global, seed: u32) -> Result<Line, AllocError>
    ensures line { IfOk result (λ line. line ≡ gen.generated seed) }
    ensures valid { IsLine (gen.generated seed) }
    ensures single { IsSingle (gen.generated seed) }
{
    let choices = Choices::of_seed(alloc, seed)?;
    let baths = choices.baths;
    Ok(Line::new(LineParts {
        track: SPACING * (baths + 1),
        gap: 2,
        hoists: choices.hoists,
        degree: 1,
        max_period: 2_000,
        load: 5,
        unload: 5,
        tanks: tanks_of(alloc, baths)?,
        stages: stages_of(alloc, &choices)?,
    }))
}

// The load, the baths and the unload.
fn tanks_of(alloc: Global, baths: u32) -> Result<Vec<Tank>, AllocError>
    requires { baths ≤ 12 }
    ensures { IfOk result (λ tanks. tanks.items ≡ map (gen.tank_of baths) (range_with_len 0 (baths + 2))) }
{
    let mut tanks = Vec::new(alloc);
    for i in 0..baths + 2 {
        let name = tank_name(alloc, baths, i)?;
        tanks.push(Tank {
            name,
            at: SPACING * i,
        })?;
    }
    Ok(tanks)
}

fn tank_name(alloc: Global, baths: u32, i: u32) -> Result<Name, AllocError>
    requires { baths ≤ 12 }
    ensures { IfOk result (λ name. name ≡ gen.tank_name baths i) }
{
    let text = if i == 0 {
        format!(in alloc; "load")?
    } else if i <= baths {
        format!(in alloc; "t{i}")?
    } else {
        format!(in alloc; "out")?
    };
    Ok(Name::from_vec(text.into_bytes()))
}

// The load, the baths in their order, and the unload.
fn stages_of(alloc: Global, choices: &Choices) -> Result<Vec<Stage>, AllocError>
    requires { gen.AreChoices choices.now }
    ensures { IfOk result (λ stages. stages.items
        ≡ map (gen.stage_of choices.now) (range_with_len 0 (choices.now.baths + 2))) }
{
    let baths = choices.baths;
    let mut stages = Vec::new(alloc);
    stages.push(station(alloc, 0, LIFT, 0)?)?;
    for i in 1..baths + 1 {
        stages.push(bath(alloc, choices, i)?)?;
    }
    stages.push(station(alloc, baths + 1, 0, LOWER)?)?;
    Ok(stages)
}

// The stage of a station, which has one tank and no window.
fn station(alloc: Global, tank: u32, lift: u32, lower: u32) -> Result<Stage, AllocError>
    ensures { IfOk result
        (λ stage. stage ≡ record { tanks = tank ∷ []; min = 0; max = None; lift = lift; lower = lower }) }
{
    Ok(Stage {
        tanks: Tanks::from_vec(vec![in alloc; tank]?),
        min: 0,
        max: None,
        lift,
        lower,
    })
}

// Bath i, from 1.
fn bath(alloc: Global, choices: &Choices, i: u32) -> Result<Stage, AllocError>
    requires choices { gen.AreChoices choices.now }
    requires there { (1 ≤ i) × (i ≤ choices.now.baths) }
    ensures { IfOk result (λ stage. stage ≡ gen.stage_of choices.now i) }
{
    let tank = if choices.again && i == choices.baths {
        1
    } else {
        i
    };
    let z = choices.z[i as usize - 1];
    let min = 5 + z % 20;
    Ok(Stage {
        tanks: Tanks::from_vec(vec![in alloc; tank]?),
        min,
        max: greatest(min, z / 20),
        lift: LIFT,
        lower: LOWER,
    })
}

// The greatest dwell of a bath with this least dwell; none where the width of its window is 0.
fn greatest(min: u32, width: u32) -> Option<u32>
    requires { (min ≤ 24) × (width < 4) }
    ensures { result ≡ (if width == 0 then None else Some (min + 10 * width)) }
{
    if width == 0 {
        None
    } else {
        Some(min + 10 * width)
    }
}

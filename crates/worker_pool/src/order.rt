//! Numbered answers, put in the order of their numbers.

ghost use Rattle.std.specs.Prelude.{◌≡◌, ◌<◌, ◌++◌, map, replicate, All, IfOk, IsOkAnd, IsSome};
ghost use Rattle.worker_pool.specs.Pool.{placed};

use std::alloc::{AllocError, Global};

/// What two parts of some workers have, each in two lists, where neither is an error.
pub fn both<T: Drop, R: Drop>(
    first: Result<(Vec<T>, Vec<R>), AllocError>,
    second: Result<(Vec<T>, Vec<R>), AllocError>,
) -> Result<(Vec<T>, Vec<R>), AllocError>
    ensures { IfOk result (λ all. IsOkAnd first (λ a. IsOkAnd second (λ b.
        (all.0.items ≡ a.0.items ++ b.0.items) × (all.1.items ≡ a.1.items ++ b.1.items)))) }
{
    let (mut kept, mut rooms) = first?;
    let (mut more, mut others) = second?;
    kept.append(&mut more)?;
    rooms.append(&mut others)?;
    Ok((kept, rooms))
}

/// `count` places, each with the answer that was kept under its number.
pub fn places<T: Drop>(
    alloc: Global,
    kept: Vec<(u32, T)>,
    count: usize,
) -> Result<Vec<Option<T>>, AllocError>
    requires { All (λ p. p.0 < count) kept.items }
    ensures { IfOk result (λ places. places.items ≡ placed count kept.items) }
{
    let mut places = empty_places(alloc, count)?;
    for (number, answer) in kept {
        places[number as usize] = Some(answer);
    }
    Ok(places)
}

// `count` places with no answer.
fn empty_places<T: Drop>(alloc: Global, count: usize) -> Result<Vec<Option<T>>, AllocError>
    ensures { IfOk result (λ places. places.items ≡ replicate count None) }
{
    let mut places = Vec::with_capacity(alloc, count)?;
    for _place in 0..count {
        places.push(None)?;
    }
    Ok(places)
}

/// The answers, where each place has one.
pub fn answers<T: Drop>(alloc: Global, places: Vec<Option<T>>) -> Result<Vec<T>, AllocError>
    requires { All (λ place. IsSome place) places.items }
    ensures { IfOk result (λ outs. map Some outs.items ≡ places.items) }
{
    let mut outs = Vec::with_capacity(alloc, places.len())?;
    for place in places {
        let Some(answer) = place else { unreachable!() };
        outs.push(answer)?;
    }
    Ok(outs)
}

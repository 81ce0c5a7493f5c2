// The rules between the parts of a line.
ghost use Rattle.std.specs.Prelude.{◌≡◌, ◌+◌, ◌<◌, ◌==◌, nat_le, length};
ghost use Rattle.std.specs.List.{list_any, list_all};
ghost use Rattle.hoist_base.specs.LineData.{position_of};
ghost use Rattle.hoist_base.specs.PartsData.{data_of};
ghost use Rattle.hoist_base.specs.Valid.{IsWithinLimits};
ghost use Rattle.hoist_base.specs.Flaws.{is_name_byte, is_name, bad_name, twice_named, twice_named_with, same_place, same_place_with, has_unknown, no_tank, is_repeated, has_twice, twice_tank, have_common, same_tank, is_empty_window, empty_window, no_room, first_flaw};

use crate::limits::MAX_NAME;
use crate::parts::LineParts;
use crate::stage::Stage;

/// A rule between the parts of a line that fails, and where. Tanks and stages go by their numbers, from 0.
#[derive(Clone, Copy, Debug, PartialEq, Eq)]
pub enum Flaw {
    /// The tank's name isn't 1 to 32 letters, digits, `_` and `-`.
    BadName { tank: u32 },
    /// Tanks a < b have one name.
    TwiceNamed { a: u32, b: u32 },
    /// Tanks a < b are at one position.
    SamePlace { a: u32, b: u32 },
    /// The stage names a tank that isn't there.
    NoTank { stage: u32 },
    /// The stage names a tank twice.
    TwiceTank { stage: u32 },
    /// The stage and the next have a tank in common.
    SameTank { stage: u32 },
    /// The greatest dwell of the stage is below its least.
    EmptyWindow { stage: u32 },
    /// The hoists side by side need more than the track.
    NoRoom { need: u32, track: u32 },
}

impl LineParts {
    /// The first rule between the parts that fails, in the order of the variants of `Flaw`, and the first place
    /// that breaks it. The numbers of the line itself have to be within their limits.
    pub fn first_flaw(&self) -> Option<Flaw>
        requires { IsWithinLimits (data_of self.now) }
        ensures { result ≡ first_flaw (data_of self.now) }
    {
        if let Some(flaw) = bad_name(self) {
            return Some(flaw);
        }
        if let Some(flaw) = twice_named(self) {
            return Some(flaw);
        }
        if let Some(flaw) = same_place(self) {
            return Some(flaw);
        }
        if let Some(flaw) = no_tank(self) {
            return Some(flaw);
        }
        if let Some(flaw) = twice_tank(self) {
            return Some(flaw);
        }
        if let Some(flaw) = same_tank(self) {
            return Some(flaw);
        }
        if let Some(flaw) = empty_window(self) {
            return Some(flaw);
        }
        no_room(self)
    }
}

fn is_name_byte(byte: u8) -> bool
    ensures { result ≡ is_name_byte byte }
{
    byte.is_ascii_alphanumeric() || byte == b'_' || byte == b'-'
}

fn all_name_bytes(name: &[u8]) -> bool
    ensures { result ≡ list_all is_name_byte name.now }
{
    name.iter().all(|byte| is_name_byte(*byte))
}

fn is_name(name: &[u8]) -> bool
    ensures { result ≡ is_name name.now }
{
    1 <= name.len() && name.len() <= MAX_NAME as usize && all_name_bytes(name)
}

#[tactic(auto, using(crate::proofs::Firsts::numbers_more, crate::proofs::Firsts::numbers_none))]
fn bad_name(parts: &LineParts) -> Option<Flaw>
    requires { IsWithinLimits (data_of parts.now) }
    ensures { result ≡ bad_name (data_of parts.now) }
{
    for i in 0..parts.tanks.len() {
        if !is_name(parts.tanks[i].name.as_slice()) {
            return Some(Flaw::BadName { tank: i as u32 });
        }
    }
    None
}

/// The first later tank with the name of tank `a`.
#[tactic(auto, using(crate::proofs::Firsts::numbers_more, crate::proofs::Firsts::numbers_none))]
fn twice_named_with(parts: &LineParts, a: usize) -> Option<Flaw>
    requires limits { IsWithinLimits (data_of parts.now) }
    requires there { a < length parts.now.tanks.items }
    ensures { result ≡ twice_named_with (data_of parts.now) a }
{
    for b in a + 1..parts.tanks.len() {
        if parts.tanks[a].name.as_slice() == parts.tanks[b].name.as_slice() {
            return Some(Flaw::TwiceNamed {
                a: a as u32,
                b: b as u32,
            });
        }
    }
    None
}

#[tactic(auto, using(crate::proofs::Firsts::numbers_more, crate::proofs::Firsts::numbers_none))]
fn twice_named(parts: &LineParts) -> Option<Flaw>
    requires { IsWithinLimits (data_of parts.now) }
    ensures { result ≡ twice_named (data_of parts.now) }
{
    for a in 0..parts.tanks.len() {
        if let Some(flaw) = twice_named_with(parts, a) {
            return Some(flaw);
        }
    }
    None
}

fn share_place(parts: &LineParts, a: usize, b: usize) -> bool
    requires first { a < length parts.now.tanks.items }
    requires second { b < length parts.now.tanks.items }
    ensures { result ≡ (position_of (data_of parts.now) a == position_of (data_of parts.now) b) }
{
    parts.tanks[a].at == parts.tanks[b].at
}

/// The first later tank at the position of the tank `first`.
#[tactic(auto, using(crate::proofs::Firsts::numbers_more, crate::proofs::Firsts::numbers_none))]
fn same_place_with(parts: &LineParts, first: usize) -> Option<Flaw>
    requires limits { IsWithinLimits (data_of parts.now) }
    requires there { first < length parts.now.tanks.items }
    ensures { result ≡ same_place_with (data_of parts.now) first }
{
    for later in first + 1..parts.tanks.len() {
        if share_place(parts, first, later) {
            return Some(Flaw::SamePlace {
                a: first as u32,
                b: later as u32,
            });
        }
    }
    None
}

#[tactic(auto, using(crate::proofs::Firsts::numbers_more, crate::proofs::Firsts::numbers_none))]
fn same_place(parts: &LineParts) -> Option<Flaw>
    requires { IsWithinLimits (data_of parts.now) }
    ensures { result ≡ same_place (data_of parts.now) }
{
    for a in 0..parts.tanks.len() {
        if let Some(flaw) = same_place_with(parts, a) {
            return Some(flaw);
        }
    }
    None
}

/// Whether one of the numbers isn't below `count`.
fn has_from(numbers: &[u32], count: usize) -> bool
    ensures { result ≡ list_any (λ i. nat_le count i) numbers.now }
{
    numbers.iter().any(|number| count <= *number as usize)
}

fn has_unknown(parts: &LineParts, stage: usize) -> bool
    requires { stage < length parts.now.stages.items }
    ensures { result ≡ has_unknown (data_of parts.now) stage }
{
    has_from(parts.stages[stage].tanks.as_slice(), parts.tanks.len())
}

#[tactic(auto, using(crate::proofs::Firsts::numbers_more, crate::proofs::Firsts::numbers_none))]
fn no_tank(parts: &LineParts) -> Option<Flaw>
    requires { IsWithinLimits (data_of parts.now) }
    ensures { result ≡ no_tank (data_of parts.now) }
{
    for k in 0..parts.stages.len() {
        if has_unknown(parts, k) {
            return Some(Flaw::NoTank { stage: k as u32 });
        }
    }
    None
}

#[tactic(auto, using(crate::proofs::Firsts::numbers_more, crate::proofs::Firsts::numbers_none))]
fn is_repeated(tanks: &[u32], a: usize) -> bool
    requires { a < length tanks.now }
    ensures { result ≡ is_repeated tanks.now a }
{
    for b in a + 1..tanks.len() {
        if tanks[a] == tanks[b] {
            return true;
        }
    }
    false
}

#[tactic(auto, using(crate::proofs::Firsts::numbers_more, crate::proofs::Firsts::numbers_none))]
fn has_twice(tanks: &[u32]) -> bool
    ensures { result ≡ has_twice tanks.now }
{
    for a in 0..tanks.len() {
        if is_repeated(tanks, a) {
            return true;
        }
    }
    false
}

#[tactic(auto, using(crate::proofs::Firsts::numbers_more, crate::proofs::Firsts::numbers_none))]
fn twice_tank(parts: &LineParts) -> Option<Flaw>
    requires { IsWithinLimits (data_of parts.now) }
    ensures { result ≡ twice_tank (data_of parts.now) }
{
    for k in 0..parts.stages.len() {
        if has_twice(parts.stages[k].tanks.as_slice()) {
            return Some(Flaw::TwiceTank { stage: k as u32 });
        }
    }
    None
}

fn has(numbers: &[u32], number: u32) -> bool
    ensures { result ≡ list_any (λ y. number == y) numbers.now }
{
    numbers.iter().any(|other| number == *other)
}

fn have_common(xs: &[u32], ys: &[u32]) -> bool
    ensures { result ≡ have_common xs.now ys.now }
{
    xs.iter().any(|x| has(ys, *x))
}

#[tactic(auto, using(crate::proofs::Firsts::numbers_more, crate::proofs::Firsts::numbers_none))]
fn same_tank(parts: &LineParts) -> Option<Flaw>
    requires { IsWithinLimits (data_of parts.now) }
    ensures { result ≡ same_tank (data_of parts.now) }
{
    for k in 0..parts.stages.len() - 1 {
        let here = parts.stages[k].tanks.as_slice();
        let next = parts.stages[k + 1].tanks.as_slice();
        if have_common(here, next) {
            return Some(Flaw::SameTank { stage: k as u32 });
        }
    }
    None
}

fn is_empty_window(stage: &Stage) -> bool
    ensures { result ≡ is_empty_window stage.now }
{
    match stage.max {
        Some(greatest) => greatest < stage.min,
        None => false,
    }
}

#[tactic(auto, using(crate::proofs::Firsts::numbers_more, crate::proofs::Firsts::numbers_none))]
fn empty_window(parts: &LineParts) -> Option<Flaw>
    requires { IsWithinLimits (data_of parts.now) }
    ensures { result ≡ empty_window (data_of parts.now) }
{
    for k in 0..parts.stages.len() {
        if is_empty_window(&parts.stages[k]) {
            return Some(Flaw::EmptyWindow { stage: k as u32 });
        }
    }
    None
}

fn no_room(parts: &LineParts) -> Option<Flaw>
    requires { IsWithinLimits (data_of parts.now) }
    ensures { result ≡ no_room (data_of parts.now) }
{
    let need = (parts.hoists - 1) * parts.gap;
    if parts.track < need {
        Some(Flaw::NoRoom {
            need,
            track: parts.track,
        })
    } else {
        None
    }
}

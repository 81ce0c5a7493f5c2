// The test of parts: their numbers one by one, and then the rules between them.
ghost use Rattle.std.specs.Prelude.{◌≡◌, ℕ, ◌+◌, ◌<◌, ◌≤◌, ◌↔◌, IsTrue, length, IfSome};
ghost use Rattle.hoist_base.specs.LineData.{stage, position_of, IsStageOf, IsStep};
ghost use Rattle.hoist_base.specs.Valid.{IsWithinLimits, IsEnd, IsLine};
ghost use Rattle.hoist_base.specs.Limits.{max_dwell, min_tanks, max_tanks, min_stages, max_stages};
ghost use Rattle.hoist_base.specs.PartsData.{data_of};
ghost use Rattle.hoist_base.specs.Ranges.{HasEnds, HasRangesAt, HasRanges};

use crate::limits::{
    MAX_DEGREE, MAX_DWELL, MAX_GAP, MAX_HOISTS, MAX_LIFT, MAX_LOWER, MAX_STAGES, MAX_TANKS,
    MAX_TANKS_OF_STAGE, MAX_TRACK, MIN_STAGES, MIN_TANKS, PERIOD_LIMIT,
};
use crate::parts::LineParts;
use crate::stage::Stage;

impl LineParts {
    /// Whether these parts make a line: whether they keep every limit and every rule between them.
    #[tactic(auto, using(crate::proofs::FlawLemmas::ranges_of))]
    pub fn is_valid(&self) -> bool
        ensures { IsTrue result ↔ IsLine (data_of self.now) }
    {
        has_ranges(self) && self.first_flaw().is_none()
    }
}

fn is_between(least: u32, number: u32, greatest: u32) -> bool
    ensures { IsTrue result ↔ ((least ≤ number) × (number ≤ greatest)) }
{
    least <= number && number <= greatest
}

fn has_counts(parts: &LineParts) -> bool
    ensures tanks { IsTrue result
        → (min_tanks ≤ length parts.now.tanks.items) × (length parts.now.tanks.items ≤ max_tanks) }
    ensures stages { IsTrue result
        → (min_stages ≤ length parts.now.stages.items) × (length parts.now.stages.items ≤ max_stages) }
    ensures only { (min_tanks ≤ length parts.now.tanks.items) × (length parts.now.tanks.items ≤ max_tanks)
        → (min_stages ≤ length parts.now.stages.items) × (length parts.now.stages.items ≤ max_stages)
        → IsTrue result }
{
    let tanks = parts.tanks.len();
    let stages = parts.stages.len();
    MIN_TANKS as usize <= tanks
        && tanks <= MAX_TANKS as usize
        && MIN_STAGES as usize <= stages
        && stages <= MAX_STAGES as usize
}

fn is_within_limits(parts: &LineParts) -> bool
    ensures { IsTrue result ↔ IsWithinLimits (data_of parts.now) }
{
    is_between(1, parts.track, MAX_TRACK)
        && is_between(1, parts.gap, MAX_GAP)
        && is_between(1, parts.hoists, MAX_HOISTS)
        && is_between(1, parts.degree, MAX_DEGREE)
        && is_between(1, parts.max_period, PERIOD_LIMIT)
        && parts.load <= MAX_DWELL
        && parts.unload <= MAX_DWELL
        && has_counts(parts)
}

fn are_on_track(parts: &LineParts) -> bool
    ensures { IsTrue result
        ↔ ((i : ℕ) → i < length parts.now.tanks.items → position_of (data_of parts.now) i ≤ parts.now.track) }
{
    for i in 0..parts.tanks.len() {
        if parts.tanks[i].at > parts.track {
            return false;
        }
    }
    true
}

fn is_end(stage: &Stage) -> bool
    ensures { IsTrue result ↔ IsEnd stage.now }
{
    stage.tanks.as_slice().len() == 1 && stage.min == 0 && stage.max.is_none()
}

fn has_ends(parts: &LineParts) -> bool
    requires { 2 ≤ length parts.now.stages.items }
    ensures { IsTrue result ↔ HasEnds (data_of parts.now) }
{
    let first = &parts.stages[0];
    let last = &parts.stages[parts.stages.len() - 1];
    is_end(first) && is_end(last) && first.lower == 0 && last.lift == 0
}

/// Whether the least and the greatest dwell are in range, each by itself.
fn has_window(stage: &Stage) -> bool
    ensures { IsTrue result
        ↔ ((1 ≤ stage.now.min) × (stage.now.min ≤ max_dwell)
        × IfSome stage.now.max (λ m. (1 ≤ m) × (m ≤ max_dwell))) }
{
    if !is_between(1, stage.min, MAX_DWELL) {
        return false;
    }
    match stage.max {
        None => true,
        Some(greatest) => is_between(1, greatest, MAX_DWELL),
    }
}

/// Whether stage k has no more tanks than a stage may have, and the lift of stage k, the lower of the next one and
/// the window between two moves are in their ranges.
fn has_ranges_at(parts: &LineParts, k: usize) -> bool
    requires { k < length parts.now.stages.items }
    ensures { IsTrue result ↔ HasRangesAt (data_of parts.now) k }
{
    let stages = parts.stages.as_slice();
    let count = stages[k].tanks.as_slice().len();
    if count == 0 || count > MAX_TANKS_OF_STAGE as usize {
        return false;
    }
    if k + 1 >= stages.len() {
        return true;
    }
    if !is_between(1, stages[k].lift, MAX_LIFT) || !is_between(1, stages[k + 1].lower, MAX_LOWER) {
        return false;
    }
    k + 2 >= stages.len() || has_window(&stages[k + 1])
}

fn have_ranges(parts: &LineParts) -> bool
    ensures { IsTrue result ↔ ((k : ℕ) → IsStageOf (data_of parts.now) k → HasRangesAt (data_of parts.now) k) }
{
    for k in 0..parts.stages.len() {
        if !has_ranges_at(parts, k) {
            return false;
        }
    }
    true
}

/// Whether the numbers of a line are in their ranges, each by itself.
fn has_ranges(parts: &LineParts) -> bool
    ensures { IsTrue result ↔ HasRanges (data_of parts.now) }
{
    is_within_limits(parts) && are_on_track(parts) && has_ends(parts) && have_ranges(parts)
}

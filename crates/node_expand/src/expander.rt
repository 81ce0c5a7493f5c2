// The expansion of paths.
ghost use Rattle.std.specs.Prelude.{◌≡◌, ℕ, ◌<◌, ◌≤◌, [], length, take, IfOk, IfSome};
ghost use Rattle.hoist_base.specs.LineData.{LineData, move_count};
ghost use Rattle.hoist_base.specs.Routes.{IsRoute};
ghost use Rattle.hoist_base.specs.Valid.{IsLine};
ghost use Rattle.longest_path.specs.Bounds.{IsCap};
ghost use Rattle.path_constraints.specs.Questions.{FitsPath};
ghost use Rattle.period_constraints.specs.Order.{IsFirstQuestion};
ghost use Rattle.path_constraints.specs.Places.{system_below};
ghost use Rattle.path_constraints.specs.Ticks.{tick_at};
ghost use Rattle.period_constraints.specs.Lookups.{IsLookupOf};
ghost use Rattle.node_expand.specs.PathSystems.{IsAt};
ghost use Rattle.node_expand.specs.Settled.{HasTanks, HasHoists};
ghost use Rattle.node_expand.specs.Plannable.{Settles};
ghost use Rattle.node_expand.specs.Expansion.{NoneStuck, IsExpansion};
ghost use Rattle.node_expand.specs.Shown.{Shows, HasShortWalks};
ghost use Rattle.node_expand.specs.Climbs.{EndsInHoists, IsLeastPeriodOf, AreClimbs, IsClimbOf};

use crate::climbs::{Climbs, without_hoists};
use crate::expanded::Expanded;
use crate::least_period::{LeastPeriod, PathClimb, climb_at};
use crate::path_system::PathSystem;
use crate::settling::{hoists_of, route_of};
use crate::solved::{Solved, Ticks};
use crate::stuck::Reach;
use choice_tree::{Decision, Question};
use hoist_base::Line;
use longest_path::{Room, System};
use period_constraints::{Lookup, base_of, child_count};
use std::alloc::{AllocError, Global};
use std::marker::Model;

/// Expands the paths of one line, one after another, in room that is used again. It remembers the climbs of recent
/// paths, and is seen as its line.
#[derive(Drop)]
pub struct Expander {
    line: Line,
    lookup: Lookup,
    reach: Reach,
    at: PathSystem,
    climbs: Climbs,
    room: Room,
}

impl Model for Expander {
    ghost use Rattle.hoist_base.specs.LineData.{LineData};
    ghost use Rattle.node_expand.specs.PathSystems.{IsPathSystem};
    ghost use Rattle.node_expand.specs.Reaching.{IsReachOf};
    ghost use Rattle.node_expand.specs.Climbs.{AreClimbs};
    ghost use Rattle.period_constraints.specs.Lookups.{IsLookupOf};

    ghost Value = { LineData };

    ghost view = { λ e. e.line };

    ghost invariant = { λ e. IsPathSystem e.line e.at × IsReachOf e.line e.reach × IsLookupOf e.line e.lookup
        × AreClimbs e.line e.climbs };
}

// The solved path, where these ticks leave no question.
fn solved_of(
    alloc: Global,
    line: &Line,
    path: &[Decision],
    period: u32,
    ticks: Ticks,
) -> Result<Solved, AllocError>
    requires fits { FitsPath line.now path.now }
    requires tanks { HasTanks line.now path.now }
    requires hoists { HasHoists line.now path.now }
    ensures period { IfOk result (λ s. s.period ≡ period) }
    ensures ticks { IfOk result (λ s. s.ticks ≡ ticks) }
    ensures settles { IfOk result (λ s. Settles line.now path.now s) }
    ensures route { IfOk result (λ s. IsRoute line.now s.tanks) }
    ensures count { IfOk result (λ s. length s.hoists ≡ move_count line.now) }
{
    let hoists = hoists_of(alloc, line, path)?;
    let tanks = route_of(alloc, line, path)?;
    Ok(Solved {
        period,
        ticks,
        hoists,
        tanks,
    })
}

// Where the climb of the path without its decisions on hoists at the end stands, if it is remembered and its period is
// below the cap. It is looked for only where there are such decisions.
fn find_climb(climbs: &mut Climbs, path: &[Decision], cap: u32) -> Option<usize>
    requires few { (length climbs.old.kept.items ≤ 512) × (climbs.old.found ≤ 512) }
    ensures same { (climbs.new.kept ≡ climbs.old.kept) × (climbs.new.next ≡ climbs.old.next) }
    ensures found { climbs.new.found ≤ 512 }
    ensures climb { IfSome result (λ k. (n : ℕ) × (n ≤ length path.now) × EndsInHoists path.now n
        × IsClimbOf (take n path.now) cap climbs.new k) }
{
    let count = without_hoists(path);
    if count == path.len() {
        return None;
    }
    climbs.find(&path[..count], cap)
}

// What comes of a path with this least feasible period, where the ticks there leave this first question.
fn expand_least(
    alloc: Global,
    line: &Line,
    path: &[Decision],
    least: LeastPeriod,
    question: Option<Question>,
) -> Result<Expanded, AllocError>
    requires valid { IsLine line.now }
    requires fits { FitsPath line.now path.now }
    requires reach { NoneStuck line.now path.now }
    requires least { IsLeastPeriodOf line.now path.now least }
    requires small { least.period ≤ 20000 }
    requires first { IsFirstQuestion line.now path.now (tick_at least.ticks) least.period question }
    ensures expansion { IfOk result (λ x. (cap : ℕ) → least.period < cap → IsExpansion line.now path.now cap x) }
    ensures shows { IfOk result (λ x. (cap : ℕ) → least.period < cap → Shows line.now path.now cap x) }
    ensures few { IfOk result HasShortWalks }
{
    let LeastPeriod { period, low, ticks } = least;
    match question {
        Some(question) => Ok(Expanded::Split {
            question,
            children: child_count(line, path, question),
            period,
            low,
        }),
        None => {
            let solved = solved_of(alloc, line, path, period, ticks)?;
            Ok(Expanded::Solved { solved, low })
        }
    }
}

// What comes of a path whose least feasible period a climb found before.
fn expand_again(
    alloc: Global,
    lookup: &mut Lookup,
    line: &Line,
    path: &[Decision],
    least: &LeastPeriod,
) -> Result<Expanded, AllocError>
    requires lookup { IsLookupOf line.now lookup.old }
    requires valid { IsLine line.now }
    requires fits { FitsPath line.now path.now }
    requires reach { NoneStuck line.now path.now }
    requires least { IsLeastPeriodOf line.now path.now least.now }
    requires small { least.now.period ≤ 20000 }
    ensures lookup { lookup.new ≡ lookup.old }
    ensures expansion { IfOk result (λ x. (cap : ℕ) → least.now.period < cap → IsExpansion line.now path.now cap x) }
    ensures shows { IfOk result (λ x. (cap : ℕ) → least.now.period < cap → Shows line.now path.now cap x) }
    ensures few { IfOk result HasShortWalks }
{
    let ticks = least.ticks.as_slice();
    let question = lookup.first_question(line, path, ticks, least.period);
    let least = least.copied(alloc)?;
    let expanded = expand_least(alloc, line, path, least, question)?;
    Ok(expanded)
}

// Remembers the climb of a path that a question on a hoist splits.
fn remember(
    alloc: Global,
    climbs: &mut Climbs,
    path: &[Decision],
    least: &LeastPeriod,
    question: Option<Question>,
) -> Result<(), AllocError>
    requires next { climbs.old.next < 512 }
    ensures { (l : LineData) → AreClimbs l climbs.old → IsLeastPeriodOf l path.now least.now → AreClimbs l climbs.new }
{
    match question {
        Some(Question::Assign { .. }) => {
            climbs.keep(alloc, path, least)?;
            Ok(())
        }
        _ => Ok(()),
    }
}

// What comes of a path with this least feasible period, which is remembered where a question on a hoist splits the
// path.
fn expand_first(
    alloc: Global,
    lookup: &mut Lookup,
    climbs: &mut Climbs,
    line: &Line,
    path: &[Decision],
    least: LeastPeriod,
) -> Result<Expanded, AllocError>
    requires lookup { IsLookupOf line.now lookup.old }
    requires climbs { AreClimbs line.now climbs.old }
    requires valid { IsLine line.now }
    requires fits { FitsPath line.now path.now }
    requires reach { NoneStuck line.now path.now }
    requires least { IsLeastPeriodOf line.now path.now least }
    requires small { least.period ≤ 20000 }
    ensures lookup { lookup.new ≡ lookup.old }
    ensures climbs { AreClimbs line.now climbs.new }
    ensures expansion { IfOk result (λ x. (cap : ℕ) → least.period < cap → IsExpansion line.now path.now cap x) }
    ensures shows { IfOk result (λ x. (cap : ℕ) → least.period < cap → Shows line.now path.now cap x) }
    ensures few { IfOk result HasShortWalks }
{
    let ticks = least.ticks.as_slice();
    let question = lookup.first_question(line, path, ticks, least.period);
    remember(alloc, climbs, path, &least, question)?;
    let expanded = expand_least(alloc, line, path, least, question)?;
    Ok(expanded)
}

impl Expander {
    /// An expander of the line whose system before any decision is `base`.
    pub fn new(alloc: Global, line: &Line, base: &System) -> Result<Expander, AllocError>
        requires { base.now ≡ system_below line.now [] }
        ensures { IfOk result (λ expander. expander ≡ line.now) }
    {
        let lookup = Lookup::new(alloc, line)?;
        let reach = Reach::of(line);
        let at = PathSystem::new(alloc, line, base)?;
        let climbs = Climbs::new(alloc);
        let room = Room::new(alloc);
        let line = line.of_degree(alloc, line.degree())?;
        Ok(Expander {
            line,
            lookup,
            reach,
            at,
            climbs,
            room,
        })
    }

    /// The expansion of a path under a cap.
    pub fn expand(
        &mut self,
        alloc: Global,
        line: &Line,
        path: &[Decision],
        cap: u32,
    ) -> Result<Expanded, AllocError>
        requires line { self.old ≡ line.now }
        requires fits { FitsPath line.now path.now }
        requires short { length path.now ≤ 20000 }
        requires cap { IsCap cap }
        ensures same { self.new ≡ self.old }
        ensures expansion { IfOk result (λ x. IsExpansion line.now path.now cap x) }
        ensures shows { IfOk result (λ x. Shows line.now path.now cap x) }
        ensures few { IfOk result HasShortWalks }
    {
        if let Some(m) = self.reach.first_stuck(line, path) {
            return Ok(Expanded::Stuck { m });
        }
        self.expand_reached(alloc, line, path, cap)
    }

    // The expansion of a path where some hoist may reach every move: by a climb that is remembered, or else by one of
    // its own.
    fn expand_reached(
        &mut self,
        alloc: Global,
        line: &Line,
        path: &[Decision],
        cap: u32,
    ) -> Result<Expanded, AllocError>
        requires line { self.old ≡ line.now }
        requires fits { FitsPath line.now path.now }
        requires reach { NoneStuck line.now path.now }
        requires short { length path.now ≤ 20000 }
        requires cap { IsCap cap }
        ensures same { self.new ≡ self.old }
        ensures expansion { IfOk result (λ x. IsExpansion line.now path.now cap x) }
        ensures shows { IfOk result (λ x. Shows line.now path.now cap x) }
        ensures few { IfOk result HasShortWalks }
    {
        if let Some(k) = find_climb(&mut self.climbs, path, cap) {
            let least = &self.climbs.kept[k].least;
            let expanded = expand_again(alloc, &mut self.lookup, line, path, least)?;
            return Ok(expanded);
        }
        self.at.go_to(line, path)?;
        let climb = climb_at(alloc, &mut self.room, &self.at, line, path, cap)?;
        match climb {
            PathClimb::Shut { low, high } => Ok(Expanded::Closed { low, high }),
            PathClimb::Least(least) => {
                let expanded = expand_first(
                    alloc,
                    &mut self.lookup,
                    &mut self.climbs,
                    line,
                    path,
                    least,
                )?;
                Ok(expanded)
            }
        }
    }
}

/// The expansion of a path under a cap, on the system of the line before any decision.
pub fn expand_on(
    alloc: Global,
    line: &Line,
    base: &System,
    path: &[Decision],
    cap: u32,
) -> Result<Expanded, AllocError>
    requires base { base.now ≡ system_below line.now [] }
    requires fits { FitsPath line.now path.now }
    requires short { length path.now ≤ 20000 }
    requires cap { IsCap cap }
    ensures expansion { IfOk result (λ x. IsExpansion line.now path.now cap x) }
    ensures shows { IfOk result (λ x. Shows line.now path.now cap x) }
    ensures few { IfOk result HasShortWalks }
{
    let mut expander = Expander::new(alloc, line, base)?;
    expander.expand(alloc, line, path, cap)
}

/// The expansion of a path under a cap.
pub fn expand(
    alloc: Global,
    line: &Line,
    path: &[Decision],
    cap: u32,
) -> Result<Expanded, AllocError>
    requires fits { FitsPath line.now path.now }
    requires short { length path.now ≤ 20000 }
    requires cap { IsCap cap }
    ensures expansion { IfOk result (λ x. IsExpansion line.now path.now cap x) }
    ensures shows { IfOk result (λ x. Shows line.now path.now cap x) }
    ensures few { IfOk result HasShortWalks }
{
    let base = base_of(alloc, line)?;
    expand_on(alloc, line, &base, path, cap)
}

// Walks of constraints, followed along a path.
ghost use Rattle.std.specs.Prelude.{◌≡◌, ◌<◌, ◌==◌, if◌then◌else◌, ◌↔◌, length, IsSome, IfSome, MatchResult};
ghost use Rattle.hoist_base.specs.LineData.{move_count};
ghost use Rattle.hoist_base.specs.Valid.{IsLine};
ghost use Rattle.std.specs.Option.{option_or};
ghost use Rattle.longest_path.specs.System.{IsArc};
ghost use Rattle.path_constraints.specs.Questions.{FitsPath};
ghost use Rattle.path_constraints.specs.Constraints.{IsConstraint, arc_of};
ghost use Rattle.answer_text.specs.Fields.{IsWalk};
ghost use Rattle.answer_text.specs.Nodes.{IsWalkOr};
ghost use Rattle.cert_checker.specs.Walks.{token_at};
ghost use Rattle.cert_checker.specs.Followed.{IsFollowed, IsFollowedOr, IsFirstStray, IsFirstStrayOr};

use choice_tree::{Constraint, Decision, Proof};
use cycle_walk::Sums;
use hoist_base::Line;
use longest_path::Arc;
use path_constraints::constraint_of;

/// A walk whose constraints all are on the path: how many they are, their sums, and the first that doesn't end where
/// the next one begins, or the last where it doesn't end where the first begins.
#[derive(Clone, Copy)]
pub(crate) struct Followed {
    pub(crate) count: u32,
    pub(crate) sums: Sums,
    pub(crate) loose: Option<u32>,
}

// The place that was found already, or else this one, where its constraint doesn't end where the next one begins.
fn first_gap(found: Option<u32>, end: u32, begin: u32, place: u32) -> Option<u32>
    ensures { result ≡ option_or found (if end == begin then None else Some place) }
{
    match found {
        Some(_) => found,
        None if end == begin => None,
        None => Some(place),
    }
}

// Constraint j of a walk, where it is on the path.
fn constraint_at(line: &Line, path: &[Decision], names: &[Constraint], j: u32) -> Option<Arc>
    requires valid { IsLine line.now }
    requires fits { FitsPath line.now path.now }
    requires there { j < length names.now }
    ensures named { IsSome result ↔ IsConstraint line.now path.now (token_at names.now j) }
    ensures value { IfSome result (λ arc. arc ≡ arc_of line.now path.now (token_at names.now j)) }
    ensures arc { IfSome result (IsArc (move_count line.now)) }
{
    constraint_of(line, path, names[j as usize])
}

/// Follows a walk, looking each constraint up once; or the place of the first one that isn't on the path.
pub(crate) fn follow(line: &Line, path: &[Decision], walk: &Proof) -> Result<Followed, u32>
    requires valid { IsLine line.now }
    requires fits { FitsPath line.now path.now }
    requires walk { IsWalk walk.now }
    ensures { MatchResult result (λ f. IsFollowed line.now path.now walk.now f)
        (λ j. IsFirstStray line.now path.now walk.now j) }
{
    let names = walk.as_slice();
    let count = names.len() as u32;
    let Some(first) = constraint_at(line, path, names, 0) else {
        return Err(0);
    };
    let mut end = first.to;
    let mut w = first.w;
    let mut q = first.q;
    let mut loose = None;
    for j in 1..count {
        let Some(arc) = constraint_at(line, path, names, j) else {
            return Err(j);
        };
        loose = first_gap(loose, end, arc.from, j - 1);
        end = arc.to;
        w += arc.w;
        q += arc.q;
    }
    loose = first_gap(loose, end, first.from, count - 1);
    let sums = Sums { w, q };
    Ok(Followed { count, sums, loose })
}

/// Follows a walk, where there is one.
pub(crate) fn follow_some(
    line: &Line,
    path: &[Decision],
    walk: &Option<Proof>,
) -> Result<Option<Followed>, u32>
    requires valid { IsLine line.now }
    requires fits { FitsPath line.now path.now }
    requires walk { IsWalkOr walk.now }
    ensures { MatchResult result (λ f. IsFollowedOr line.now path.now walk.now f)
        (λ j. IsFirstStrayOr line.now path.now walk.now j) }
{
    match walk {
        None => Ok(None),
        Some(walk) => {
            let followed = follow(line, path, walk)?;
            Ok(Some(followed))
        }
    }
}

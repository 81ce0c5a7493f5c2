// Clashes of two motions.
ghost use Rattle.std.specs.Prelude.{◌≡◌, ◌<◌, Some, IfSome};
ghost use Rattle.line_model.specs.Motion.{IsMotion};
ghost use Rattle.collision_pairs.specs.Forbidden.{IsForbidden, IsSpanOf};
ghost use Rattle.collision_pairs.specs.Clash.{clash_of, once_span, IsTight};
ghost use Rattle.collision_pairs.specs.Clash as spans;

use crate::corner::{Corner, corners, reach};
use crate::span::{Span, join, turn};
use hoist_base::Line;
use move_list::{Motion, duration};

// The least span round what one point of the lower hoist and the corners of the upper one forbid.
fn around_one(room: u32, point: Corner, others: &[Corner]) -> Option<Span>
    ensures { result ≡ spans.around_one room point others.now }
{
    let mut span = None;
    for other in others {
        span = join(span, reach(room, point, *other));
    }
    span
}

// The least span round what the corners of the lower hoist's motion and of the upper one's forbid.
fn around_all(room: u32, points: &[Corner], others: &[Corner]) -> Option<Span>
    ensures { result ≡ spans.around_all room points.now others.now }
{
    let mut span = None;
    for point in points {
        span = join(span, around_one(room, *point, others));
    }
    span
}

// The offsets at which the upper hoist, which follows `b`, comes nearer than `room` to the lower one, which follows
// `a`.
fn too_near(a: Motion, b: Motion, room: u32) -> Option<Span>
    requires motions { IsMotion a × IsMotion b }
    ensures { result ≡ spans.around_all room (spans.corners a) (spans.corners b) }
{
    around_all(room, &corners(a), &corners(b))
}

// The offsets at which one hoist can't follow both.
fn at_once(a: Motion, b: Motion) -> Span
    requires motions { IsMotion a × IsMotion b }
    ensures { result ≡ once_span a b }
{
    let after = duration(a) + b.from.abs_diff(a.to);
    let before = duration(b) + a.from.abs_diff(b.to);
    Span {
        after: i64::from(after),
        before: i64::from(before),
    }
}

/// The forbidden offsets of motion `a` on hoist `ha` and motion `b` on hoist `hb`, or None where there is none.
///
/// The offset is the start of `b` less the start of `a`, in ticks. It is forbidden where one hoist would carry by both
/// at one tick or be too slow between them, or where two hoists would come nearer than the line's gap.
/// The forbidden offsets have no holes. It takes no memory.
pub fn clash(line: &Line, a: Motion, ha: u32, b: Motion, hb: u32) -> Option<Span>
    requires motions { IsMotion a × IsMotion b }
    requires hoists { (ha < line.now.hoists) × (hb < line.now.hoists) }
    ensures span { IsSpanOf result (IsForbidden line.now a ha b hb) }
    ensures value { result ≡ clash_of line.now a ha b hb }
    ensures one_hoist { ha ≡ hb → result ≡ Some (once_span a b) }
    ensures tight { IfSome result IsTight }
{
    if ha == hb {
        Some(at_once(a, b))
    } else if ha < hb {
        too_near(a, b, (hb - ha) * line.gap())
    } else {
        turn(too_near(b, a, (ha - hb) * line.gap()))
    }
}

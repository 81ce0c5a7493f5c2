// Sets of offsets.
ghost use Rattle.std.specs.Prelude.{◌≡◌, Option};
ghost use Rattle.collision_pairs.specs.Clash.{joined, turned_answer};

/// The offsets o with `-before < o < after`, in ticks.
#[derive(Clone, Copy, Debug, PartialEq, Eq)]
pub struct Span {
    pub after: i64,
    pub before: i64,
}

// The same offsets from the other motion's start.
pub(crate) fn turn(answer: Option<Span>) -> Option<Span>
    ensures { result ≡ turned_answer answer }
{
    answer.map(|span| Span {
        after: span.before,
        before: span.after,
    })
}

// The least span round both.
pub(crate) fn join(x: Option<Span>, y: Option<Span>) -> Option<Span>
    ensures { result ≡ joined x y }
{
    match (x, y) {
        (None, y) => y,
        (Some(s), None) => Some(s),
        (Some(s), Some(t)) => Some(Span {
            after: s.after.max(t.after),
            before: s.before.max(t.before),
        }),
    }
}

// A closed walk as a table.
ghost use Rattle.std.specs.Prelude.{◌≡◌, ◌≤◌, length, map, All, unsigned_abs, IfOk};
ghost use Rattle.std.specs.Fmt.{signed_decimal};
ghost use Rattle.path_constraints.specs.Questions.{FitsPath};
ghost use Rattle.path_constraints.specs.Constraints.{IsConstraint};
ghost use Rattle.path_constraints.specs.Proves.{IsClosedWalk};
ghost use Rattle.cycle_walk.specs.Refuting.{AreSmall};
ghost use Rattle.markup.specs.Forms.{saying, fresh, holding_all};
ghost use Rattle.walk_words.specs.Walks as walks;

use crate::periods::sums_words;
use crate::steps::step_words;
use crate::sums::{arc_named, sums_of};
use choice_tree::{Constraint, Decision};
use cycle_walk::Sums;
use hoist_base::Line;
use markup::{Element, Key, Tag};
use std::alloc::{AllocError, Global};
use text_writing::push_signed;

/// A cell of a row.
fn cell(alloc: Global, tag: Tag, words: &[u8]) -> Result<Element, AllocError>
    ensures { IfOk result (λ e. e ≡ saying (fresh tag) words.now) }
{
    Element::new(alloc, tag).saying(words)
}

/// Words, and behind them ticks and periods.
fn row(
    alloc: Global,
    tag: Tag,
    words: &[u8],
    ticks: &[u8],
    periods: &[u8],
) -> Result<Element, AllocError>
    ensures { IfOk result (λ e. e ≡ walks.row tag words.now ticks.now periods.now) }
{
    let first = cell(alloc, tag, words)?;
    let second = cell(alloc, tag, ticks)?;
    let third = cell(alloc, tag, periods)?;
    Element::new(alloc, Tag::Row)
        .holding(&first)?
        .holding(&second)?
        .holding(&third)
}

/// A number that may be negative, in decimal.
fn signed(alloc: Global, number: i64) -> Result<Vec<u8>, AllocError>
    ensures { IfOk result (λ text. text.items ≡ signed_decimal number) }
{
    let mut text = Vec::new(alloc);
    push_signed(&mut text, number)?;
    Ok(text)
}

/// Words with their ticks, and how many periods later.
fn weighed_row(alloc: Global, words: &[u8], w: i64, q: i64) -> Result<Element, AllocError>
    requires { unsigned_abs q ≤ 10000000000000 }
    ensures { IfOk result (λ e. e ≡ walks.weighed_row words.now w q) }
{
    let ticks = signed(alloc, w)?;
    let periods = signed(alloc, -q)?;
    row(
        alloc,
        Tag::Cell,
        words,
        ticks.as_slice(),
        periods.as_slice(),
    )
}

/// A constraint of the path.
fn step_row(
    alloc: Global,
    line: &Line,
    path: &[Decision],
    name: Constraint,
) -> Result<Element, AllocError>
    requires fits { FitsPath line.now path.now }
    requires named { IsConstraint line.now path.now name }
    ensures { IfOk result (λ e. e ≡ walks.step_row line.now path.now name) }
{
    let words = step_words(alloc, line, path, name)?;
    let arc = arc_named(line, path, name);
    weighed_row(alloc, words.as_slice(), arc.w, arc.q)
}

/// The sums, and the periods that follow.
fn sums_row(alloc: Global, sums: Sums) -> Result<Element, AllocError>
    requires { AreSmall sums }
    ensures { IfOk result (λ e. e ≡ walks.sums_row sums) }
{
    let words = sums_words(alloc, sums)?;
    weighed_row(alloc, words.as_slice(), sums.w, sums.q)
}

/// The table with what its columns are, and no constraint yet.
fn blank(alloc: Global) -> Result<Element, AllocError>
    ensures { IfOk result (λ e. e ≡ walks.blank_table) }
{
    let head = row(alloc, Tag::HeadCell, b"constraint", b"ticks", b"periods")?;
    Element::new(alloc, Tag::Table)
        .having(Key::Class, b"walk")?
        .holding(&head)
}

/// The constraints of a walk.
fn with_steps(
    alloc: Global,
    mut table: Element,
    line: &Line,
    path: &[Decision],
    walk: &[Constraint],
) -> Result<Element, AllocError>
    requires fits { FitsPath line.now path.now }
    requires named { All (IsConstraint line.now path.now) walk.now }
    ensures { IfOk result (λ e. e ≡ holding_all table (map (walks.step_row line.now path.now) walk.now)) }
{
    for &name in walk {
        let step = step_row(alloc, line, path, name)?;
        table = table.holding(&step)?;
    }
    Ok(table)
}

/// A closed walk of constraints of the path as a table: for each constraint its words, its least distance in ticks and
/// how many periods later it is, and in the last row their sums and the periods that follow.
pub fn walk_table(
    alloc: Global,
    line: &Line,
    path: &[Decision],
    walk: &[Constraint],
) -> Result<Element, AllocError>
    requires fits { FitsPath line.now path.now }
    requires closed { IsClosedWalk line.now path.now walk.now }
    requires few { length walk.now ≤ 1000 }
    ensures { IfOk result (λ e. e ≡ walks.walk_table line.now path.now walk.now) }
{
    let steps = with_steps(alloc, blank(alloc)?, line, path, walk)?;
    let last = sums_row(alloc, sums_of(line, path, walk))?;
    steps.holding(&last)
}

// What the hoists do with the ticks of a period.
ghost use Rattle.std.specs.Prelude.{◌≡◌, ◌+◌, ◌<◌, ◌≤◌, map, IfOk};
ghost use Rattle.std.specs.List.{range_with_len};
ghost use Rattle.timetable.specs.TimetableData.{timetable_of, FitsLine};
ghost use Rattle.markup.specs.Forms.{holding_all};
ghost use Rattle.report_shares.specs.Shares as rows;

use crate::figures::share_words;
use crate::ticks::{Share, share_of};
use hoist_base::Line;
use markup::{Element, Key, Tag};
use report_dwells::{cell, drawing, headed, number_cell, section};
use std::alloc::{AllocError, Global};
use text_writing::push_word_number;
use timetable::Timetable;
use timeway::straight;

/// What the hoists of a timetable that fits its line do, as a section: a table with a row for each hoist, with the
/// ticks of a period at which it carries, drives without a load and stands, each with its percent of the period, and a
/// bar of the three.
pub fn shares(alloc: Global, line: &Line, t: &Timetable) -> Result<Element, AllocError>
    requires { FitsLine line.now t.now }
    ensures { IfOk result (λ e. e ≡ rows.shares line.now (timetable_of t.now)) }
{
    let heads = with_heads(alloc, Element::new(alloc, Tag::Row))?;
    let start = Element::new(alloc, Tag::Table).holding(&heads)?;
    let table = with_hoists(alloc, start, line, t)?;
    section(alloc, b"shares", b"Hoists")?.holding(&table)
}

/// A row with the names of the columns.
fn with_heads(alloc: Global, row: Element) -> Result<Element, AllocError>
    ensures { IfOk result (λ e. e ≡ rows.with_heads row) }
{
    let hoist = headed(alloc, row, b"hoist")?;
    let carrying = headed(alloc, hoist, b"carrying")?;
    let driving = headed(alloc, carrying, b"driving without a load")?;
    let standing = headed(alloc, driving, b"standing")?;
    headed(alloc, standing, b"share")
}

/// The rows of all hoists.
fn with_hoists(
    alloc: Global,
    mut table: Element,
    line: &Line,
    t: &Timetable,
) -> Result<Element, AllocError>
    requires { FitsLine line.now t.now }
    ensures { IfOk result (λ e. e ≡ holding_all table
        (map (rows.hoist_row line.now (timetable_of t.now)) (range_with_len 0 line.now.hoists))) }
{
    for h in 0..line.hoists() {
        let row = hoist_row(alloc, line, t, h)?;
        table = table.holding(&row)?;
    }
    Ok(table)
}

/// The row of a hoist.
fn hoist_row(alloc: Global, line: &Line, t: &Timetable, h: u32) -> Result<Element, AllocError>
    requires fits { FitsLine line.now t.now }
    requires there { h < line.now.hoists }
    ensures { IfOk result (λ e. e ≡ rows.hoist_row line.now (timetable_of t.now) h) }
{
    let share = share_of(line, t, h);
    share_row(alloc, h, share, t.period())
}

/// A hoist, its ticks of each kind with their part of the period, and the bar.
fn share_row(alloc: Global, h: u32, share: Share, period: u32) -> Result<Element, AllocError>
    requires some { 1 ≤ period }
    requires whole { share.carrying + share.driving + share.standing ≡ period }
    ensures { IfOk result (λ e. e ≡ rows.share_row h share.carrying share.driving share.standing period) }
{
    let name = number_cell(alloc, h as u64)?;
    let named = Element::new(alloc, Tag::Row).holding(&name)?;
    let carrying = with_share(alloc, named, share.carrying, period)?;
    let driving = with_share(alloc, carrying, share.driving, period)?;
    let standing = with_share(alloc, driving, share.standing, period)?;
    let shape = share_bar(alloc, share, period)?;
    let drawing = Element::new(alloc, Tag::Cell).holding(&shape)?;
    standing.holding(&drawing)
}

/// A row with ticks of one kind and their part of the period behind what it has.
fn with_share(alloc: Global, row: Element, ticks: u32, period: u32) -> Result<Element, AllocError>
    requires { 1 ≤ period }
    ensures { IfOk result (λ e. e ≡ rows.with_share row ticks period) }
{
    let words = share_words(alloc, ticks, period)?;
    let shown = cell(alloc, words.as_slice())?;
    row.holding(&shown)
}

/// A bar of the ticks of a period: those of carrying, then those of driving, then those of standing.
fn share_bar(alloc: Global, share: Share, period: u32) -> Result<Element, AllocError>
    requires { share.carrying + share.driving + share.standing ≡ period }
    ensures { IfOk result (λ e. e ≡ rows.share_bar share.carrying share.driving share.standing period) }
{
    let driven = share.carrying + share.driving;
    let sides = bar_sides(alloc, period)?;
    let carrying = part(alloc, b"carrying", 0, share.carrying)?;
    let driving = part(alloc, b"driving", share.carrying, driven)?;
    let standing = part(alloc, b"standing", driven, driven + share.standing)?;
    drawing(alloc, b"share", 200, sides.as_slice())?
        .holding(&carrying)?
        .holding(&driving)?
        .holding(&standing)
}

/// The sides of a bar that has the ticks of a period.
fn bar_sides(alloc: Global, period: u32) -> Result<Vec<u8>, AllocError>
    ensures { IfOk result (λ text. text.items ≡ rows.bar_sides period) }
{
    let mut sides = Vec::new(alloc);
    push_word_number(&mut sides, b"0 0 ", period as u64)?;
    sides.extend_from_slice(b" 10")?;
    Ok(sides)
}

/// The part of a bar from one tick to another, of a class.
fn part(alloc: Global, class: &[u8], from: u32, to: u32) -> Result<Element, AllocError>
    ensures { IfOk result (λ e. e ≡ rows.part class.now from to) }
{
    straight(alloc, from as u64, 5, to as u64, 5)?.having(Key::Class, class)
}

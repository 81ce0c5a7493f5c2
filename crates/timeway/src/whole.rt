// The diagram, put together.
ghost use Rattle.std.specs.Prelude.{◌≡◌, ◌<◌, ◌≤◌, codes, length, map, IfOk};
ghost use Rattle.std.specs.List.{range_with_len};
ghost use Rattle.hoist_base.specs.LineData.{move_at, move_count, visit_at, visit_count};
ghost use Rattle.timetable.specs.TimetableData.{timetable_of, FitsLine};
ghost use Rattle.markup.specs.declared.words.Key.TheVariants as keys;
ghost use Rattle.markup.specs.Forms.{having, holding_all};
ghost use Rattle.timeway.specs.Shapes as shapes;
ghost use Rattle.timeway.specs.Scales as scales;
ghost use Rattle.timeway.specs.Diagram as diagrams;

use crate::bars::bar;
use crate::notes::{tank_note, tick_note};
use crate::rides::ride;
use crate::scales::{MARGIN, grid_count, grid_step, plot_height, plot_width};
use crate::shapes::{below, straight};
use crate::ways::way;
use hoist_base::Line;
use markup::{Element, Key, Tag};
use std::alloc::{AllocError, Global};
use text_writing::{push_number, push_word_number};
use timetable::Timetable;

/// The time-way diagram of a timetable that fits its line: two periods with ticks to the right and positions upward.
/// Each hoist's way is a line through its positions at all ticks, over which a line of the carrier's class lies while
/// it carries; each stay in a tank is a bar of the carrier's class, from the start of lowering to the end of lifting.
pub fn diagram(alloc: Global, line: &Line, t: &Timetable) -> Result<Element, AllocError>
    requires { FitsLine line.now t.now }
    ensures { IfOk result (λ e. e ≡ diagrams.diagram line.now (timetable_of t.now)) }
{
    let shapes = plot(alloc, line, t)?;
    let bare = Element::new(alloc, Tag::Svg)
        .having(Key::Class, b"diagram")?
        .having_number(Key::Width, MARGIN + plot_width(line) + 40)?
        .having_number(Key::Height, plot_height(line) + 24)?
        .holding(&shapes)?;
    let named = with_names(alloc, bare, line)?;
    with_ticks(alloc, named, line, t.period())
}

/// The plot: the scale and the tanks, and then the stays, the ways and the rides.
fn plot(alloc: Global, line: &Line, t: &Timetable) -> Result<Element, AllocError>
    requires { FitsLine line.now t.now }
    ensures { IfOk result (λ e. e ≡ diagrams.plot line.now (timetable_of t.now)) }
{
    let scaled = with_grid(alloc, frame(alloc, line, t.period())?, line, t.period())?;
    let tanks = with_tanks(alloc, scaled, line, t.period())?;
    let ground = with_ends(alloc, tanks, line, t.period())?;
    let stays = with_bars(alloc, ground, line, t)?;
    let ways = with_ways(alloc, stays, line, t)?;
    with_rides(alloc, ways, line, t)
}

/// The plot without its shapes. Its sides are ticks and positions, however wide and high it is drawn.
fn frame(alloc: Global, line: &Line, period: u32) -> Result<Element, AllocError>
    requires { period ≤ 20000 }
    ensures { IfOk result (λ e. e ≡ having (diagrams.frame line.now period) keys.Scaling (codes "none")) }
{
    let sides = view_box(alloc, line, period)?;
    Element::new(alloc, Tag::Svg)
        .having(Key::Class, b"plot")?
        .having_number(Key::X, MARGIN)?
        .having_number(Key::Width, plot_width(line))?
        .having_number(Key::Height, plot_height(line))?
        .having(Key::ViewBox, sides.as_slice())?
        .having(Key::Scaling, b"none")
}

/// The ticks of two periods to the right, the positions upward.
fn view_box(alloc: Global, line: &Line, period: u32) -> Result<Vec<u8>, AllocError>
    requires { period ≤ 20000 }
    ensures { IfOk result (λ text. text.items ≡ diagrams.view_box line.now period) }
{
    let mut sides = Vec::new(alloc);
    push_number(&mut sides, period as u64)?;
    push_word_number(&mut sides, b" -1 ", 2 * period as u64)?;
    push_word_number(&mut sides, b" ", line.track() as u64 + 2)?;
    Ok(sides)
}

/// A line through all positions at a tick of the plot.
fn upright(alloc: Global, line: &Line, tick: u64, class: &[u8]) -> Result<Element, AllocError>
    ensures { IfOk result (λ e. e ≡ having (shapes.straight tick 0 tick line.now.track) keys.Class class.now) }
{
    straight(alloc, tick, 0, tick, line.track() as u64)?.having(Key::Class, class)
}

/// A mark of the scale.
fn grid_line(alloc: Global, line: &Line, period: u32, i: u32) -> Result<Element, AllocError>
    requires period { period ≤ 20000 }
    requires mark { i ≤ 40001 }
    ensures { IfOk result (λ e. e ≡ diagrams.grid_line line.now period i) }
{
    let tick = period + i * grid_step(period);
    upright(alloc, line, tick as u64, b"grid")
}

/// The begin of the first period, or the end of one.
fn end_line(alloc: Global, line: &Line, period: u32, i: u32) -> Result<Element, AllocError>
    requires period { period ≤ 20000 }
    requires mark { i < 3 }
    ensures { IfOk result (λ e. e ≡ diagrams.end_line line.now period i) }
{
    let tick = period + i * period;
    upright(alloc, line, tick as u64, b"end")
}

/// The position of a tank.
fn tank_line(alloc: Global, line: &Line, period: u32, i: u32) -> Result<Element, AllocError>
    requires period { period ≤ 20000 }
    requires tank { i < length line.now.tanks }
    ensures { IfOk result (λ e. e ≡ diagrams.tank_line line.now period i) }
{
    let y = below(line, line.at(i)) as u64;
    straight(alloc, period as u64, y, 3 * period as u64, y)?.having(Key::Class, b"tank")
}

/// The marks of the scale.
fn with_grid(
    alloc: Global,
    mut plot: Element,
    line: &Line,
    period: u32,
) -> Result<Element, AllocError>
    requires { period ≤ 20000 }
    ensures { IfOk result (λ e. e ≡ holding_all plot
        (map (diagrams.grid_line line.now period) (range_with_len 0 (scales.grid_count period)))) }
{
    for i in 0..grid_count(period) {
        let shape = grid_line(alloc, line, period, i)?;
        plot = plot.holding(&shape)?;
    }
    Ok(plot)
}

/// The begin of the first period, and the end of each.
fn with_ends(
    alloc: Global,
    mut plot: Element,
    line: &Line,
    period: u32,
) -> Result<Element, AllocError>
    requires { period ≤ 20000 }
    ensures { IfOk result (λ e. e ≡ holding_all plot (map (diagrams.end_line line.now period) (range_with_len 0 3))) }
{
    for i in 0..3 {
        let shape = end_line(alloc, line, period, i)?;
        plot = plot.holding(&shape)?;
    }
    Ok(plot)
}

/// The positions of the tanks.
fn with_tanks(
    alloc: Global,
    mut plot: Element,
    line: &Line,
    period: u32,
) -> Result<Element, AllocError>
    requires { period ≤ 20000 }
    ensures { IfOk result (λ e. e ≡ holding_all plot
        (map (diagrams.tank_line line.now period) (range_with_len 0 (length line.now.tanks)))) }
{
    for i in 0..line.tanks().len() as u32 {
        let shape = tank_line(alloc, line, period, i)?;
        plot = plot.holding(&shape)?;
    }
    Ok(plot)
}

/// The stays in tanks.
fn with_bars(
    alloc: Global,
    mut plot: Element,
    line: &Line,
    t: &Timetable,
) -> Result<Element, AllocError>
    requires { FitsLine line.now t.now }
    ensures { IfOk result (λ e. e ≡ holding_all plot
        (map (λ i. shapes.bar line.now (timetable_of t.now) (visit_at line.now i).carrier (visit_at line.now i).stage)
        (range_with_len 0 (visit_count line.now)))) }
{
    for i in 0..line.visit_count() {
        let shape = bar(alloc, line, t, line.visit_at(i))?;
        plot = plot.holding(&shape)?;
    }
    Ok(plot)
}

/// The ways of the hoists.
fn with_ways(
    alloc: Global,
    mut plot: Element,
    line: &Line,
    t: &Timetable,
) -> Result<Element, AllocError>
    requires { FitsLine line.now t.now }
    ensures { IfOk result (λ e. e ≡ holding_all plot
        (map (shapes.way line.now (timetable_of t.now)) (range_with_len 0 line.now.hoists))) }
{
    for h in 0..line.hoists() {
        let shape = way(alloc, line, t, h)?;
        plot = plot.holding(&shape)?;
    }
    Ok(plot)
}

/// The rides.
fn with_rides(
    alloc: Global,
    mut plot: Element,
    line: &Line,
    t: &Timetable,
) -> Result<Element, AllocError>
    requires { FitsLine line.now t.now }
    ensures { IfOk result (λ e. e ≡ holding_all plot
        (map (λ i. shapes.ride line.now (timetable_of t.now) (move_at line.now i).carrier (move_at line.now i).step)
        (range_with_len 0 (move_count line.now)))) }
{
    for i in 0..line.move_count() {
        let shape = ride(alloc, line, t, line.move_at(i))?;
        plot = plot.holding(&shape)?;
    }
    Ok(plot)
}

/// The names of the tanks.
fn with_names(alloc: Global, mut whole: Element, line: &Line) -> Result<Element, AllocError>
    ensures { IfOk result (λ e. e ≡ holding_all whole
        (map (diagrams.tank_note line.now) (range_with_len 0 (length line.now.tanks)))) }
{
    for i in 0..line.tanks().len() as u32 {
        let words = tank_note(alloc, line, i)?;
        whole = whole.holding(&words)?;
    }
    Ok(whole)
}

/// The numbers of the scale.
fn with_ticks(
    alloc: Global,
    mut whole: Element,
    line: &Line,
    period: u32,
) -> Result<Element, AllocError>
    requires some { 1 ≤ period }
    requires small { period ≤ 20000 }
    ensures { IfOk result (λ e. e ≡ holding_all whole
        (map (diagrams.tick_note line.now period) (range_with_len 0 (scales.grid_count period)))) }
{
    for i in 0..grid_count(period) {
        let words = tick_note(alloc, line, period, i)?;
        whole = whole.holding(&words)?;
    }
    Ok(whole)
}

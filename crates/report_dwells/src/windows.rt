// Where a dwell lies in its window.
ghost use Rattle.std.specs.Prelude.{◌≡◌, ◌≤◌, ◌==◌, ◌++◌, OnOk, IfOk};
ghost use Rattle.report_dwells.specs.Windows as windows;

use crate::cells::drawing;
use markup::{Element, Key};
use std::alloc::{AllocError, Global};
use text_writing::push_number;
use timeway::{carrier_class, straight};

/// Whether a dwell is the greatest of its window.
fn is_greatest(ticks: u64, most: Option<u32>) -> bool
    ensures { result ≡ windows.is_greatest ticks most }
{
    match most {
        None => false,
        Some(most) => ticks == most as u64,
    }
}

/// The ends of its window at which a dwell is, as the class of its row.
pub(crate) fn end_class(ticks: u64, least: u32, most: Option<u32>) -> &'static [u8]
    ensures { result.now ≡ windows.end_class (ticks == least) (windows.is_greatest ticks most) }
{
    match (ticks == least as u64, is_greatest(ticks, most)) {
        (true, true) => b"least greatest",
        (true, false) => b"least",
        (false, true) => b"greatest",
        (false, false) => b"between",
    }
}

/// The ends of its window at which a dwell is, in words.
fn end_words(ticks: u64, least: u32, most: Option<u32>) -> &'static [u8]
    ensures { result.now ≡ windows.end_words (ticks == least) (windows.is_greatest ticks most) }
{
    match (ticks == least as u64, is_greatest(ticks, most)) {
        (true, true) => b" at its least and at its greatest",
        (true, false) => b" at its least",
        (false, true) => b" at its greatest",
        (false, false) => b"",
    }
}

/// The ticks of a dwell, and at which ends of its window it is.
pub(crate) fn dwell_words(
    alloc: Global,
    ticks: u64,
    least: u32,
    most: Option<u32>,
) -> Result<Vec<u8>, AllocError>
    ensures { IfOk result (λ text. text.items ≡ windows.dwell_words ticks least most) }
{
    let mut text = Vec::new(alloc);
    push_number(&mut text, ticks)?;
    text.extend_from_slice(end_words(ticks, least, most))?;
    Ok(text)
}

/// How far in its window a dwell lies, in hundredths: all of a window that has one tick alone.
fn share(ticks: u64, least: u32, most: u32) -> u64
    ensures { result ≡ windows.share ticks least most }
{
    if most <= least {
        return 100;
    }
    let behind = ticks.min(most as u64).saturating_sub(least as u64);
    behind * 100 / (most - least) as u64
}

/// The mark of an end of a window.
fn end_mark(alloc: Global, x: u64) -> Result<Element, AllocError>
    ensures { IfOk result (λ e. e ≡ windows.end_mark x) }
{
    straight(alloc, x, 0, x, 10)?.having(Key::Class, b"end")
}

/// The bar of a carrier's dwell, from the least to the dwell.
fn dwell_bar(alloc: Global, carrier: u32, hundredths: u64) -> Result<Element, AllocError>
    ensures { IfOk result (λ e. e ≡ windows.dwell_bar carrier hundredths) }
{
    let class = carrier_class(alloc, b"bar c", carrier)?;
    straight(alloc, 0, 5, hundredths, 5)?.having(Key::Class, class.as_slice())
}

/// A drawing with the greatest dwell and the bar behind what it has; without a greatest dwell it stays as it is.
fn within(
    alloc: Global,
    start: Element,
    carrier: u32,
    ticks: u64,
    least: u32,
    most: Option<u32>,
) -> Result<Element, AllocError>
    ensures { IfOk result (λ e. e ≡ windows.within start carrier ticks least most) }
{
    let Some(most) = most else {
        return Ok(start);
    };
    let end = end_mark(alloc, 100)?;
    let bar = dwell_bar(alloc, carrier, share(ticks, least, most))?;
    start.holding(&end)?.holding(&bar)
}

/// A window and a carrier's dwell in it; of a window without a greatest dwell the least alone is drawn.
pub(crate) fn window(
    alloc: Global,
    carrier: u32,
    ticks: u64,
    least: u32,
    most: Option<u32>,
) -> Result<Element, AllocError>
    ensures { IfOk result (λ e. e ≡ windows.window carrier ticks least most) }
{
    let mark = end_mark(alloc, 0)?;
    let start = drawing(alloc, b"window", 104, b"-2 0 104 10")?.holding(&mark)?;
    within(alloc, start, carrier, ticks, least, most)
}

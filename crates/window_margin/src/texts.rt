//! Margins, in words.

ghost use Rattle.std.specs.Prelude.{◌≡◌, ◌++◌, codes, decimal, length, flat_map, OnOk, IfOk};
ghost use Rattle.window_margin.specs.MarginText.{arc_line};
ghost use Rattle.window_margin.specs.MarginText as texts;

use crate::reads::{MarginArc, MarginRead};
use std::alloc::{AllocError, Global};
use text_writing::{push_word_number, push_word_pair, push_word_signed};

fn push_arc(text: &mut Vec<u8>, a: MarginArc) -> Result<(), AllocError>
    ensures { OnOk result (text.new.items ≡ text.old.items ++ arc_line a) }
{
    push_word_pair(text, b"arc ", a.from.carrier, a.from.step)?;
    push_word_pair(text, b" ", a.to.carrier, a.to.step)?;
    push_word_signed(text, b" ", a.w)?;
    push_word_number(text, b" ", a.g as u64)?;
    text.push(b'\n')?;
    Ok(())
}

// The constraints in their order, a line each.
fn push_arcs(text: &mut Vec<u8>, arcs: &[MarginArc]) -> Result<(), AllocError>
    ensures { OnOk result (text.new.items ≡ text.old.items ++ flat_map arc_line arcs.now) }
{
    for a in arcs {
        push_arc(text, *a)?;
    }
    Ok(())
}

// A margin and its walk.
fn push_found(text: &mut Vec<u8>, ticks: u32, arcs: &[MarginArc]) -> Result<(), AllocError>
    ensures { OnOk result (text.new.items ≡ text.old.items
        ++ (codes "margin " ++ (decimal ticks ++ (codes "\nwalk " ++ (decimal (length arcs.now)
        ++ (codes "\n" ++ (flat_map arc_line arcs.now ++ codes "end\n"))))))) }
{
    push_word_number(text, b"margin ", ticks as u64)?;
    push_word_number(text, b"\nwalk ", arcs.len() as u64)?;
    text.push(b'\n')?;
    push_arcs(text, arcs)?;
    text.extend_from_slice(b"end\n")?;
    Ok(())
}

/// The text of a margin: `margin none` where the line has no inner stage; else the margin, the number of the walk's
/// constraints, a line for each with the moves that it joins, its ticks and how often the margin stands in it, and
/// `end`.
pub fn margin_text(alloc: Global, read: &MarginRead) -> Result<Vec<u8>, AllocError>
    ensures { IfOk result (λ text. text.items ≡ texts.margin_text read.now) }
{
    let mut text = Vec::new(alloc);
    match read {
        MarginRead::NoWindow => text.extend_from_slice(b"margin none\n")?,
        MarginRead::Found { ticks, walk, .. } => push_found(&mut text, *ticks, walk.as_slice())?,
    }
    Ok(text)
}

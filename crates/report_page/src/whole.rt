// The page, put together.
ghost use Rattle.std.specs.Prelude.{◌≡◌, ◌++◌, OnOk, IfOk};
ghost use Rattle.timetable.specs.TimetableData.{timetable_of, FitsLine};
ghost use Rattle.answer_text.specs.Answers.{IsWritable};
ghost use Rattle.cert_checker.specs.Rules.{KeepsRules};
ghost use Rattle.markup.specs.Forms.{IsDocument};
ghost use Rattle.report_reason.specs.Reason.{IsReason};
ghost use Rattle.report_page.specs.Page as pages;

use crate::diagram::timeway;
use crate::parts::said;
use crate::style::style_sheet;
use answer_text::Answer;
use hoist_base::Line;
use markup::{Element, Key, Tag, document};
use report_dwells::dwells;
use report_reason::reason;
use report_shares::{numbers, shares};
use std::alloc::{AllocError, Global};
use text_writing::push_word_number;
use timetable::Timetable;

/// The page of an answer that keeps the rules and of its timetable, which fits the line. Every number on it is that of
/// the answer and every name is escaped. An error comes where memory runs out alone.
pub fn page(
    alloc: Global,
    line: &Line,
    answer: &Answer,
    t: &Timetable,
) -> Result<Vec<u8>, AllocError>
    requires fits { FitsLine line.now t.now }
    requires text { IsWritable line.now answer.now }
    requires kept { KeepsRules line.now answer.now }
    ensures page { IfOk result (λ text. pages.IsPage line.now answer.now (timetable_of t.now) text.items) }
    ensures tree { IfOk result (λ text. IsDocument text.items) }
{
    let why = reason(alloc, line, answer)?;
    let whole = root(alloc, line, answer, t, &why)?;
    let text = document(alloc, &whole)?;
    Ok(text)
}

#[tactic(auto, unfolding(crate::specs::Page::root))]
/// The whole element, with its reason.
fn root(
    alloc: Global,
    line: &Line,
    answer: &Answer,
    t: &Timetable,
    why: &Element,
) -> Result<Element, AllocError>
    requires { FitsLine line.now t.now }
    ensures { IfOk result (λ e. e ≡ pages.root line.now answer.now (timetable_of t.now) why.now) }
{
    let top = head(alloc, t)?;
    let rest = body(alloc, line, answer, t, why)?;
    Element::new(alloc, Tag::Html)
        .having(Key::Lang, b"en")?
        .holding(&top)?
        .holding(&rest)
}

#[tactic(auto, unfolding(crate::specs::Page::head))]
/// The head: the character set, the title and the style sheet.
fn head(alloc: Global, t: &Timetable) -> Result<Element, AllocError>
    ensures { IfOk result (λ e. e ≡ pages.head (timetable_of t.now)) }
{
    let charset = Element::new(alloc, Tag::Meta).having(Key::Charset, b"utf-8")?;
    let title = said(alloc, Tag::Title, title_words(alloc, t)?.as_slice())?;
    let style = said(alloc, Tag::Style, style_sheet())?;
    Element::new(alloc, Tag::Head)
        .holding(&charset)?
        .holding(&title)?
        .holding(&style)
}

#[tactic(auto, unfolding(crate::specs::Page::body))]
/// The body: what the page is of, and its sections, the reason last.
fn body(
    alloc: Global,
    line: &Line,
    answer: &Answer,
    t: &Timetable,
    why: &Element,
) -> Result<Element, AllocError>
    requires { FitsLine line.now t.now }
    ensures { IfOk result (λ e. e ≡ pages.body line.now answer.now (timetable_of t.now) why.now) }
{
    let figures = numbers(alloc, line, answer, t)?;
    let shapes = timeway(alloc, line, t)?;
    let begun = opening(alloc, line, t)?
        .holding(&figures)?
        .holding(&shapes)?;
    with_tables(alloc, begun, line, t)?.holding(why)
}

#[tactic(auto, unfolding(crate::specs::Page::opening))]
/// A body that holds what the page is of alone.
fn opening(alloc: Global, line: &Line, t: &Timetable) -> Result<Element, AllocError>
    ensures { IfOk result (λ e. e ≡ pages.opening line.now (timetable_of t.now)) }
{
    let heading = said(alloc, Tag::Heading, title_words(alloc, t)?.as_slice())?;
    let size = said(alloc, Tag::Paragraph, line_words(alloc, line)?.as_slice())?;
    Element::new(alloc, Tag::Body)
        .holding(&heading)?
        .holding(&size)
}

#[tactic(auto, unfolding(crate::specs::Page::with_tables))]
/// The body with the dwells and the shares behind what it holds.
fn with_tables(
    alloc: Global,
    begun: Element,
    line: &Line,
    t: &Timetable,
) -> Result<Element, AllocError>
    requires { FitsLine line.now t.now }
    ensures { IfOk result (λ e. e ≡ pages.with_tables line.now (timetable_of t.now) begun) }
{
    let stays = dwells(alloc, line, t)?;
    let parts = shares(alloc, line, t)?;
    begun.holding(&stays)?.holding(&parts)
}

#[tactic(auto, unfolding(crate::specs::Page::title_words))]
/// What the page is of.
fn title_words(alloc: Global, t: &Timetable) -> Result<Vec<u8>, AllocError>
    ensures { IfOk result (λ text. text.items ≡ pages.title_words (timetable_of t.now)) }
{
    let mut text = Vec::new(alloc);
    push_word_number(&mut text, b"Hoist timetable: period ", t.period() as u64)?;
    Ok(text)
}

#[tactic(auto, unfolding(crate::specs::Page::line_words))]
/// How large the line is.
fn line_words(alloc: Global, line: &Line) -> Result<Vec<u8>, AllocError>
    ensures { IfOk result (λ text. text.items ≡ pages.line_words line.now) }
{
    let mut text = Vec::new(alloc);
    push_places(&mut text, line)?;
    push_movers(&mut text, line)?;
    Ok(text)
}

/// Writes how many tanks and stages there are.
fn push_places(text: &mut Vec<u8>, line: &Line) -> Result<(), AllocError>
    ensures { OnOk result (text.new.items ≡ text.old.items ++ pages.place_words line.now) }
{
    push_word_number(text, b"Tanks: ", line.tanks().len() as u64)?;
    push_word_number(text, b", stages: ", line.stages().len() as u64)
}

/// Writes how many hoists there are, and carriers in a period.
fn push_movers(text: &mut Vec<u8>, line: &Line) -> Result<(), AllocError>
    ensures { OnOk result (text.new.items ≡ text.old.items ++ pages.mover_words line.now) }
{
    push_word_number(text, b", hoists: ", line.hoists() as u64)?;
    push_carriers(text, line)
}

#[tactic(auto, unfolding(crate::specs::Page::carrier_words))]
/// Writes how many carriers there are in a period.
fn push_carriers(text: &mut Vec<u8>, line: &Line) -> Result<(), AllocError>
    ensures { OnOk result (text.new.items ≡ text.old.items ++ pages.carrier_words line.now) }
{
    push_word_number(text, b", carriers in a period: ", line.degree() as u64)
}

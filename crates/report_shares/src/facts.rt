// The numbers of an answer.
ghost use Rattle.std.specs.Prelude.{◌≡◌, ◌<◌, ◌≤◌, map, IfOk};
ghost use Rattle.std.specs.List.{range_with_len};
ghost use Rattle.timetable.specs.TimetableData.{timetable_of, FitsLine};
ghost use Rattle.report_shares.specs.Numbers as tables;

use crate::figures::rate_words;
use answer_text::{Answer, Verdict};
use hoist_base::{Line, VisitId};
use markup::{Element, Tag};
use report_dwells::{cell, heading, number_cell, section};
use std::alloc::{AllocError, Global};
use text_writing::{Worded, push_word_number};
use timetable::{Timetable, arrival, departure};

/// The numbers of an answer and of its timetable, which fits the line, as a section: the period, how many carriers
/// enter in it and in 1000 ticks, the ticks of each carrier in the line, the verdict, the bound, how many questions
/// show it, and whether the period is the least or how many ticks it is above the bound.
pub fn numbers(
    alloc: Global,
    line: &Line,
    answer: &Answer,
    t: &Timetable,
) -> Result<Element, AllocError>
    requires { FitsLine line.now t.now }
    ensures { IfOk result (λ e. e ≡ tables.numbers line.now answer.now (timetable_of t.now)) }
{
    let period = t.period();
    let start = with_period(
        alloc,
        Element::new(alloc, Tag::Table),
        line.degree(),
        period,
    )?;
    let carriers = with_carriers(alloc, start, line, t)?;
    let table = with_verdict(alloc, carriers, answer, period)?;
    section(alloc, b"numbers", b"Numbers")?.holding(&table)
}

/// A name and the words that belong to it.
fn fact(alloc: Global, name: &[u8], words: &[u8]) -> Result<Element, AllocError>
    ensures { IfOk result (λ e. e ≡ tables.fact name.now words.now) }
{
    let name = heading(alloc, name)?;
    let words = cell(alloc, words)?;
    Element::new(alloc, Tag::Row)
        .holding(&name)?
        .holding(&words)
}

/// A name and its number.
fn number_fact(alloc: Global, name: &[u8], number: u64) -> Result<Element, AllocError>
    ensures { IfOk result (λ e. e ≡ tables.number_fact name.now number) }
{
    let name = heading(alloc, name)?;
    let number = number_cell(alloc, number)?;
    Element::new(alloc, Tag::Row)
        .holding(&name)?
        .holding(&number)
}

/// A table with a name and its words behind what it has.
fn with_fact(
    alloc: Global,
    table: Element,
    name: &[u8],
    words: &[u8],
) -> Result<Element, AllocError>
    ensures { IfOk result (λ e. e ≡ tables.with_fact table name.now words.now) }
{
    let row = fact(alloc, name, words)?;
    table.holding(&row)
}

/// A table with a name and its number behind what it has.
fn with_number(
    alloc: Global,
    table: Element,
    name: &[u8],
    number: u64,
) -> Result<Element, AllocError>
    ensures { IfOk result (λ e. e ≡ tables.with_number table name.now number) }
{
    let row = number_fact(alloc, name, number)?;
    table.holding(&row)
}

/// A table with the period, the carriers of a period and those of 1000 ticks behind what it has.
fn with_period(
    alloc: Global,
    table: Element,
    degree: u32,
    period: u32,
) -> Result<Element, AllocError>
    requires { 1 ≤ period }
    ensures { IfOk result (λ e. e ≡ tables.with_period table degree period) }
{
    let words = rate_words(alloc, degree, period)?;
    let ticks = with_number(alloc, table, b"period", period as u64)?;
    let carriers = with_number(alloc, ticks, b"carriers in a period", degree as u64)?;
    with_fact(alloc, carriers, b"carriers in 1000 ticks", words.as_slice())
}

/// A table with the time of each carrier in the line behind what it has.
fn with_carriers(
    alloc: Global,
    mut table: Element,
    line: &Line,
    t: &Timetable,
) -> Result<Element, AllocError>
    requires { FitsLine line.now t.now }
    ensures { IfOk result (λ e. e ≡ tables.with_carriers table line.now (timetable_of t.now)) }
{
    for c in 0..line.degree() {
        let row = carrier_fact(alloc, line, t, c)?;
        table = table.holding(&row)?;
    }
    Ok(table)
}

/// The time of a carrier in the line.
fn carrier_fact(alloc: Global, line: &Line, t: &Timetable, c: u32) -> Result<Element, AllocError>
    requires fits { FitsLine line.now t.now }
    requires there { c < line.now.degree }
    ensures { IfOk result (λ e. e ≡ tables.carrier_fact line.now (timetable_of t.now) c) }
{
    let words = carrier_words(alloc, c)?;
    number_fact(alloc, words.as_slice(), line_time(line, t, c))
}

/// The name of a carrier's time in the line.
fn carrier_words(alloc: Global, c: u32) -> Result<Vec<u8>, AllocError>
    ensures { IfOk result (λ text. text.items ≡ tables.carrier_words c) }
{
    let mut text = Vec::new(alloc);
    push_word_number(&mut text, b"ticks of carrier ", c as u64)?;
    text.extend_from_slice(b" in the line")?;
    Ok(text)
}

/// The ticks of a carrier in the line: from when it is lifted at the load until it rests at the unload.
fn line_time(line: &Line, t: &Timetable, c: u32) -> u64
    requires fits { FitsLine line.now t.now }
    requires there { c < line.now.degree }
    ensures { result ≡ tables.line_time line.now (timetable_of t.now) c }
{
    let load = VisitId {
        carrier: c,
        stage: 0,
    };
    let unload = VisitId {
        carrier: c,
        stage: line.inner() + 1,
    };
    arrival(line, t, unload).saturating_sub(departure(line, t, load))
}

/// A table with the verdict, the bound, the questions and what is open behind what it has.
fn with_verdict(
    alloc: Global,
    table: Element,
    answer: &Answer,
    period: u32,
) -> Result<Element, AllocError>
    ensures { IfOk result (λ e. e ≡ tables.with_verdict table answer.now period) }
{
    let words = gap_words(alloc, answer.verdict, period, answer.bound)?;
    let verdict = with_fact(alloc, table, b"verdict", answer.verdict.word())?;
    let bound = with_number(alloc, verdict, b"bound", answer.bound as u64)?;
    let questions = with_number(alloc, bound, b"questions", answer.splits as u64)?;
    with_fact(alloc, questions, b"result", words.as_slice())
}

/// Whether a period is known to be the least, or how many ticks it is above the bound.
fn gap_words(
    alloc: Global,
    verdict: Verdict,
    period: u32,
    bound: u32,
) -> Result<Vec<u8>, AllocError>
    ensures { IfOk result (λ text. text.items ≡ tables.gap_words verdict period bound) }
{
    let mut text = Vec::new(alloc);
    match verdict {
        Verdict::Optimal => text.extend_from_slice(b"optimal")?,
        Verdict::Nothing | Verdict::Unfinished => {
            let gap = period.saturating_sub(bound);
            push_word_number(&mut text, b"open: gap ", gap as u64)?;
        }
    }
    Ok(text)
}

// The text of a sweep.
ghost use Rattle.std.specs.Prelude.{◌≡◌, ◌++◌, codes, decimal, flat_map, IfOk, OnOk};
ghost use Rattle.text_writing.specs.Texts.{end};
ghost use Rattle.degree_sweep.specs.SweepText as texts;
ghost use Rattle.degree_sweep.specs.SweepText.{
  period_text,
  known_text,
  searched_text,
  row_text,
  period_in,
  best_text,
  settled_text,
};

use crate::rows::DegreeRow;
use crate::swept::Swept;
use std::alloc::{AllocError, Global};
use text_writing::{Worded, push_number, push_word_number};

fn push_period(text: &mut Vec<u8>, period: Option<u32>) -> Result<(), AllocError>
    ensures { OnOk result (text.new.items ≡ text.old.items ++ period_text period) }
{
    match period {
        None => text.extend_from_slice(b"none"),
        Some(period) => push_number(text, period as u64),
    }
}

fn push_known(text: &mut Vec<u8>, row: DegreeRow) -> Result<(), AllocError>
    ensures { OnOk result (text.new.items ≡ text.old.items ++ known_text row) }
{
    push_word_number(text, b"degree ", row.degree as u64)?;
    text.extend_from_slice(b" verdict ")?;
    text.extend_from_slice(row.verdict.word())
}

fn push_searched(text: &mut Vec<u8>, row: DegreeRow) -> Result<(), AllocError>
    ensures { OnOk result (text.new.items ≡ text.old.items ++ searched_text row) }
{
    push_word_number(text, b" bound ", row.bound as u64)?;
    push_word_number(text, b" splits ", row.splits as u64)
}

fn push_row(text: &mut Vec<u8>, row: DegreeRow) -> Result<(), AllocError>
    ensures { OnOk result (text.new.items ≡ text.old.items ++ row_text row) }
{
    push_known(text, row)?;
    push_searched(text, row)?;
    text.extend_from_slice(b" period ")?;
    push_period(text, row.period)?;
    text.push(b'\n')?;
    Ok(())
}

fn push_rows(text: &mut Vec<u8>, rows: &[DegreeRow]) -> Result<(), AllocError>
    ensures { OnOk result (text.new.items ≡ text.old.items ++ flat_map row_text rows.now) }
{
    for row in rows {
        push_row(text, *row)?;
    }
    Ok(())
}

/// The period of the row of a degree.
fn period_in(rows: &[DegreeRow], degree: u32) -> Option<u32>
    ensures { result ≡ period_in rows.now degree }
{
    for row in rows {
        if row.degree == degree {
            return row.period;
        }
    }
    None
}

fn push_best(text: &mut Vec<u8>, rows: &[DegreeRow], best: Option<u32>) -> Result<(), AllocError>
    ensures { OnOk result (text.new.items ≡ text.old.items ++ best_text rows.now best) }
{
    match best {
        None => text.extend_from_slice(b"none")?,
        Some(degree) => {
            push_word_number(text, b"degree ", degree as u64)?;
            text.extend_from_slice(b" period ")?;
            push_period(text, period_in(rows, degree))?;
        }
    }
    Ok(())
}

fn push_settled(text: &mut Vec<u8>, settled: bool) -> Result<(), AllocError>
    ensures { OnOk result (text.new.items ≡ text.old.items ++ (settled_text settled ++ end)) }
{
    if settled {
        text.extend_from_slice(b"yes\n")
    } else {
        text.extend_from_slice(b"no\n")
    }
}

/// The text of a sweep: how many degrees were searched, a line for each of them, the best of them with its period, and
/// whether that is settled.
///
/// # Errors
///
/// Only for want of memory.
pub fn sweep_text(alloc: Global, swept: &Swept) -> Result<Vec<u8>, AllocError>
    ensures { IfOk result (λ text. text.items ≡ texts.sweep_text swept.now) }
{
    let rows = swept.rows.as_slice();
    let mut text = Vec::new(alloc);
    push_word_number(&mut text, b"sweep ", rows.len() as u64)?;
    text.push(b'\n')?;
    push_rows(&mut text, rows)?;
    text.extend_from_slice(b"best ")?;
    push_best(&mut text, rows, swept.best)?;
    text.extend_from_slice(b"\nsettled ")?;
    push_settled(&mut text, swept.is_settled())?;
    Ok(text)
}

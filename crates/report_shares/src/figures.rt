// Numbers with places behind the point.
ghost use Rattle.std.specs.Prelude.{◌≡◌, ◌≤◌, ◌++◌, OnOk, IfOk};
ghost use Rattle.report_shares.specs.Figures as figures;

use std::alloc::{AllocError, Global};
use text_writing::{push_number, push_word_number};

/// Writes tenths, with one place behind the point.
fn push_tenths(text: &mut Vec<u8>, number: u64) -> Result<(), AllocError>
    ensures { OnOk result (text.new.items ≡ text.old.items ++ figures.tenths number) }
{
    push_number(text, number / 10)?;
    push_word_number(text, b".", number % 10)
}

/// Writes thousandths, with three places behind the point.
fn push_thousandths(text: &mut Vec<u8>, number: u64) -> Result<(), AllocError>
    ensures { OnOk result (text.new.items ≡ text.old.items ++ figures.thousandths number) }
{
    push_number(text, number / 1000)?;
    push_word_number(text, b".", number / 100 % 10)?;
    push_number(text, number / 10 % 10)?;
    push_number(text, number % 10)
}

/// Ticks, and how many percent of the period they are, rounded down to tenths.
pub(crate) fn share_words(alloc: Global, ticks: u32, period: u32) -> Result<Vec<u8>, AllocError>
    requires { 1 ≤ period }
    ensures { IfOk result (λ text. text.items ≡ figures.share_words ticks period) }
{
    let mut text = Vec::new(alloc);
    push_number(&mut text, ticks as u64)?;
    text.extend_from_slice(b" (")?;
    push_tenths(&mut text, ticks as u64 * 1000 / period as u64)?;
    text.extend_from_slice(b" %)")?;
    Ok(text)
}

/// How many carriers enter in 1000 ticks, rounded down to thousandths.
pub(crate) fn rate_words(alloc: Global, degree: u32, period: u32) -> Result<Vec<u8>, AllocError>
    requires { 1 ≤ period }
    ensures { IfOk result (λ text. text.items ≡ figures.rate_words degree period) }
{
    let mut text = Vec::new(alloc);
    push_thousandths(&mut text, degree as u64 * 1000000 / period as u64)?;
    Ok(text)
}

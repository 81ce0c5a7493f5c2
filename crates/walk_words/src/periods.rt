// The periods that a closed walk leaves.
ghost use Rattle.std.specs.Prelude.{◌≡◌, ◌≤◌, ◌++◌, OnOk, IfOk};
ghost use Rattle.cycle_walk.specs.Refuting.{AreSmall};
ghost use Rattle.walk_words.specs.Periods as periods;

use crate::places::push_signed_count;
use cycle_walk::Sums;
use std::alloc::{AllocError, Global};
use text_writing::{push_word_number, push_word_signed};

/// The periods that a closed walk doesn't refute, in ticks.
#[derive(Clone, Copy, Debug, PartialEq, Eq)]
pub enum Periods {
    /// It refutes none.
    All,
    /// It refutes those below this one.
    Least(u64),
    /// It refutes those above this one.
    Most(u64),
    /// It refutes all.
    Nothing,
}

/// The periods that closed walks with these sums leave: exactly those that they don't refute.
pub fn periods_of(sums: Sums) -> Periods
    ensures { result ≡ periods.periods_of sums }
{
    let ticks = sums.w.unsigned_abs();
    let count = sums.q.unsigned_abs();
    if sums.q < 0 {
        if sums.w < 0 {
            Periods::All
        } else {
            Periods::Least(ticks.div_ceil(count))
        }
    } else if sums.w > 0 {
        Periods::Nothing
    } else if count == 0 {
        Periods::All
    } else {
        Periods::Most(ticks / count)
    }
}

/// Writes which periods are left.
fn push_periods(text: &mut Vec<u8>, left: Periods) -> Result<(), AllocError>
    ensures { OnOk result (text.new.items ≡ text.old.items ++ periods.periods_text left) }
{
    match left {
        Periods::All => text.extend_from_slice(b", which every period has room for"),
        Periods::Least(period) => {
            push_word_number(text, b", so the period is at least ", period)
        }
        Periods::Most(period) => push_word_number(text, b", so the period is at most ", period),
        Periods::Nothing => text.extend_from_slice(b", which no period has room for"),
    }
}

/// The sums of a closed walk in words, and the periods that follow from them: "the walk takes 620 ticks in 2 periods,
/// so the period is at least 310".
pub fn sums_words(alloc: Global, sums: Sums) -> Result<Vec<u8>, AllocError>
    requires { AreSmall sums }
    ensures { IfOk result (λ text. text.items ≡ periods.sums_text sums) }
{
    let mut text = Vec::new(alloc);
    push_word_signed(&mut text, b"the walk takes ", sums.w)?;
    text.extend_from_slice(b" ticks in ")?;
    push_signed_count(&mut text, -sums.q)?;
    push_periods(&mut text, periods_of(sums))?;
    Ok(text)
}

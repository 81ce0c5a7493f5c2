// Faults of timetables, in words.
ghost use Rattle.std.specs.Prelude.{◌≡◌, ◌++◌, codes, decimal, OnOk, IfOk};
ghost use Rattle.std.specs.Fmt.{signed_decimal};
ghost use Rattle.check_text.specs.Faults.{two_text, at_text, fault_of};

use std::alloc::{AllocError, Global};
use text_writing::{push_word_number, push_word_pair, push_word_signed};
use timetable::Fault;

/// Two moves or two visits, the second so many periods later.
fn push_two(
    text: &mut Vec<u8>,
    word: &[u8],
    first: (u32, u32),
    second: (u32, u32),
    shift: i64,
) -> Result<(), AllocError>
    ensures { OnOk result (text.new.items ≡ text.old.items
        ++ (word.now ++ two_text first.0 first.1 second.0 second.1 shift)) }
{
    push_word_pair(text, word, first.0, first.1)?;
    push_word_pair(text, b" ", second.0, second.1)?;
    push_word_signed(text, b" shift ", shift)?;
    Ok(())
}

/// A hoist at a tick.
fn push_at(text: &mut Vec<u8>, word: &[u8], hoist: u32, tick: u32) -> Result<(), AllocError>
    ensures { OnOk result (text.new.items ≡ text.old.items ++ (word.now ++ at_text hoist tick)) }
{
    push_word_number(text, word, hoist as u64)?;
    push_word_number(text, b" tick ", tick as u64)?;
    Ok(())
}

/// Two numbers, each behind its word.
fn push_both(
    text: &mut Vec<u8>,
    word: &[u8],
    first: u64,
    between: &[u8],
    second: u64,
) -> Result<(), AllocError>
    ensures { OnOk result (text.new.items ≡ text.old.items
        ++ (word.now ++ (decimal first ++ (between.now ++ decimal second)))) }
{
    push_word_number(text, word, first)?;
    push_word_number(text, between, second)?;
    Ok(())
}

/// The positions at a tick and at the next.
fn push_step(text: &mut Vec<u8>, from: u32, to: u32) -> Result<(), AllocError>
    ensures { OnOk result (text.new.items ≡ text.old.items
        ++ (codes " from " ++ (decimal from ++ (codes " to " ++ decimal to)))) }
{
    push_word_number(text, b" from ", from as u64)?;
    push_word_number(text, b" to ", to as u64)?;
    Ok(())
}

/// Writes a fault, its word first and then its values.
pub(crate) fn push_fault(text: &mut Vec<u8>, fault: Fault) -> Result<(), AllocError>
    ensures { OnOk result (text.new.items ≡ text.old.items ++ fault_of fault) }
{
    match fault {
        Fault::Track { hoist, tick, at } => {
            push_at(text, b"track hoist ", hoist, tick)?;
            push_word_number(text, b" at ", at as u64)?;
        }
        Fault::Gap {
            hoist,
            tick,
            low,
            high,
        } => {
            push_at(text, b"gap hoist ", hoist, tick)?;
            push_both(text, b" low ", low as u64, b" high ", high as u64)?;
        }
        Fault::Speed {
            hoist,
            tick,
            old: from,
            new: to,
        } => {
            push_at(text, b"speed hoist ", hoist, tick)?;
            push_step(text, from, to)?;
        }
        Fault::Motion { m, u, want, seen } => {
            push_word_pair(text, b"motion ", m.carrier, m.step)?;
            push_word_number(text, b" u ", u as u64)?;
            push_both(text, b" want ", want as u64, b" seen ", seen as u64)?;
        }
        Fault::Carry { a, b, shift } => push_two(
            text,
            b"carry ",
            (a.carrier, a.step),
            (b.carrier, b.step),
            shift,
        )?,
        Fault::Dwell { v, ticks } => {
            push_word_pair(text, b"dwell ", v.carrier, v.stage)?;
            push_word_signed(text, b" ticks ", ticks)?;
        }
        Fault::Numbering { carrier, put, next } => {
            push_word_number(text, b"numbering ", carrier as u64)?;
            push_both(text, b" put ", put, b" next ", next)?;
        }
        Fault::Hold { a, b, shift } => push_two(
            text,
            b"hold ",
            (a.carrier, a.stage),
            (b.carrier, b.stage),
            shift,
        )?,
    }
    Ok(())
}

/// A fault in words, without a line end.
pub fn fault_text(alloc: Global, fault: Fault) -> Result<Vec<u8>, AllocError>
    ensures { IfOk result (λ text. text.items ≡ fault_of fault) }
{
    let mut text = Vec::new(alloc);
    push_fault(&mut text, fault)?;
    Ok(text)
}

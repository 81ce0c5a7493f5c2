// What is said of a log, as a text.
ghost use Rattle.std.specs.Prelude.{◌≡◌, ◌++◌, OnOk, IfOk, count_by, is_some, codes};
ghost use Rattle.track_log.specs.Texts as texts;

use crate::followed::Followed;
use std::alloc::{AllocError, Global};
use text_writing::push_word_number;
use tick_machine::{Breach, Frame, Hold, Rest};

/// A carrier rests there.
fn rests(hold: &Option<Hold>) -> bool
    ensures { result ≡ texts.rests hold.now }
{
    match hold {
        Some(hold) => match hold.rest {
            Rest::Resting(_) => true,
            Rest::Lowering | Rest::Lifting => false,
        },
        None => false,
    }
}

/// How many carriers rest or are carried.
fn inside(frame: &Frame) -> u64
    ensures { result ≡ texts.inside frame.now }
{
    let resting = frame.hold.iter().filter(|hold| rests(hold)).count();
    let carried = frame.carry.iter().filter(|carry| carry.is_some()).count();
    resting as u64 + carried as u64
}

/// A carrier at a stage, its age and the bound that it keeps not.
fn push_age(
    text: &mut Vec<u8>,
    carrier: u64,
    stage: u32,
    age: u64,
    bound: u64,
) -> Result<(), AllocError>
    ensures { OnOk result (text.new.items ≡ text.old.items ++ texts.age_text carrier stage age bound) }
{
    push_word_number(text, b" carrier ", carrier)?;
    push_word_number(text, b" stage ", stage as u64)?;
    push_word_number(text, b" age ", age)?;
    push_word_number(text, b" bound ", bound)
}

/// Two words, each with a number.
fn push_two(
    text: &mut Vec<u8>,
    first: &[u8],
    a: u64,
    second: &[u8],
    b: u64,
) -> Result<(), AllocError>
    ensures { OnOk result (text.new.items ≡ text.old.items ++ (texts.field first.now a ++ texts.field second.now b)) }
{
    push_word_number(text, first, a)?;
    push_word_number(text, second, b)
}

fn push_breach(text: &mut Vec<u8>, breach: Breach) -> Result<(), AllocError>
    ensures { OnOk result (text.new.items ≡ text.old.items ++ texts.breach_text breach) }
{
    match breach {
        Breach::Busy { hoist } => push_word_number(text, b"busy hoist ", hoist as u64),
        Breach::Edge { hoist, at } => {
            push_two(text, b"edge hoist ", hoist as u64, b" at ", at as u64)
        }
        Breach::NoCarrier { tank } => push_word_number(text, b"no carrier tank ", tank as u64),
        Breach::Early {
            carrier,
            stage,
            age,
            bound,
        } => {
            text.extend_from_slice(b"early")?;
            push_age(text, carrier, stage, age, bound)
        }
        Breach::Held { tank, carrier } => {
            push_two(text, b"held tank ", tank as u64, b" carrier ", carrier)
        }
        Breach::NotThere { hoist, at } => {
            push_two(text, b"not there hoist ", hoist as u64, b" at ", at as u64)
        }
        Breach::NoMove { carrier, stage } => {
            push_two(text, b"no move carrier ", carrier, b" stage ", stage as u64)
        }
        Breach::NoWay { hoist, tank } => {
            push_two(text, b"no way hoist ", hoist as u64, b" tank ", tank as u64)
        }
        Breach::Late {
            carrier,
            stage,
            age,
            bound,
        } => {
            text.extend_from_slice(b"late")?;
            push_age(text, carrier, stage, age, bound)
        }
        Breach::Near { hoist, low, high } => {
            push_word_number(text, b"near hoist ", hoist as u64)?;
            push_two(text, b" low ", low as u64, b" high ", high as u64)
        }
    }
}

/// The last tick, how many carriers were put on, and how many rest or are carried.
fn push_end(text: &mut Vec<u8>, last: u32, end: &Frame) -> Result<(), AllocError>
    ensures { OnOk result (text.new.items ≡ text.old.items
        ++ (texts.field (codes "follows ") last
        ++ (texts.field (codes "\ncarriers ") end.now.next ++ texts.field (codes "\ninside ") (texts.inside end.now)))) }
{
    let inside = inside(end);
    push_word_number(text, b"follows ", last as u64)?;
    push_word_number(text, b"\ncarriers ", end.next)?;
    push_word_number(text, b"\ninside ", inside)
}

/// What is said of a log, with a line feed behind it.
///
/// Of one that is followed its last tick, how many carriers were put on, and how many of them are in the line: those
/// that rest, and those that are carried. Of one that departs the tick and the breach, and of bytes that are no log the
/// byte at which they break.
pub fn followed_text(alloc: Global, followed: &Followed) -> Result<Vec<u8>, AllocError>
    ensures { IfOk result (λ text. text.items ≡ texts.followed_text followed.now) }
{
    let mut text = Vec::new(alloc);
    match followed {
        Followed::Follows { last, end } => push_end(&mut text, *last, end)?,
        Followed::Departs { tick, breach } => {
            push_word_number(&mut text, b"departs ", *tick as u64)?;
            text.push(b' ')?;
            push_breach(&mut text, *breach)?;
        }
        Followed::Broken { offset } => {
            push_word_number(&mut text, b"log broken at byte ", *offset)?;
        }
    }
    text.push(b'\n')?;
    Ok(text)
}

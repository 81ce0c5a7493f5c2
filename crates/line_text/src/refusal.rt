// The words for what is wrong with a line file.
ghost use Rattle.std.specs.Prelude.{◌≡◌, ◌++◌, IfOk, OnOk, decimal, map, codes};
ghost use Rattle.std.specs.Fmt.{signed_decimal};
ghost use Rattle.line_text.specs.Refusal.{tank_text, stage_text, place_text, shown, key_text, refusal_of};

use crate::texts::push_decimal;
use crate::why::{Key, Place, Why};
use itoa::Buffer;
use std::alloc::{AllocError, Global};

fn push_tank(text: &mut Vec<u8>, tank: u32) -> Result<(), AllocError>
    ensures { OnOk result (text.new.items ≡ text.old.items ++ tank_text tank) }
{
    text.extend_from_slice(b"tank[")?;
    push_decimal(text, tank)?;
    text.extend_from_slice(b"]")
}

fn push_stage(text: &mut Vec<u8>, stage: u32) -> Result<(), AllocError>
    ensures { OnOk result (text.new.items ≡ text.old.items ++ stage_text stage) }
{
    text.extend_from_slice(b"stage[")?;
    push_decimal(text, stage)?;
    text.extend_from_slice(b"]")
}

fn push_place(text: &mut Vec<u8>, place: Place) -> Result<(), AllocError>
    ensures { OnOk result (text.new.items ≡ text.old.items ++ place_text place) }
{
    match place {
        Place::Root => Ok(()),
        Place::Tank(tank) => {
            push_tank(text, tank)?;
            text.extend_from_slice(b".")
        }
        Place::Stage(stage) => {
            push_stage(text, stage)?;
            text.extend_from_slice(b".")
        }
    }
}

fn shown(byte: u8) -> u8
    ensures { result ≡ shown byte }
{
    if 0x21 <= byte && byte <= 0x7e {
        byte
    } else {
        b'?'
    }
}

fn push_shown(text: &mut Vec<u8>, name: &[u8]) -> Result<(), AllocError>
    ensures { OnOk result (text.new.items ≡ text.old.items ++ map shown name.now) }
{
    for byte in name {
        text.push(shown(*byte))?;
    }
    Ok(())
}

fn push_key(text: &mut Vec<u8>, key: &Key) -> Result<(), AllocError>
    ensures { OnOk result (text.new.items ≡ text.old.items ++ key_text key.now) }
{
    push_place(text, key.table)?;
    push_shown(text, key.name.as_slice())
}

/// The words and then the key.
fn at_key(alloc: Global, words: &[u8], key: &Key) -> Result<Vec<u8>, AllocError>
    ensures { IfOk result (λ text. text.items ≡ words.now ++ key_text key.now) }
{
    let mut text = Vec::from_slice(alloc, words)?;
    push_key(&mut text, key)?;
    Ok(text)
}

fn at_value(alloc: Global, words: &[u8], key: &Key, value: i64) -> Result<Vec<u8>, AllocError>
    ensures { IfOk result (λ text. text.items ≡ words.now ++ (key_text key.now ++ (codes " " ++ signed_decimal value))) }
{
    let mut text = at_key(alloc, words, key)?;
    text.extend_from_slice(b" ")?;
    let mut buffer = Buffer::new();
    text.extend_from_slice(buffer.format(value).as_bytes())?;
    Ok(text)
}

/// The words and then a tank.
fn at_tank(alloc: Global, words: &[u8], tank: u32) -> Result<Vec<u8>, AllocError>
    ensures { IfOk result (λ text. text.items ≡ words.now ++ tank_text tank) }
{
    let mut text = Vec::from_slice(alloc, words)?;
    push_tank(&mut text, tank)?;
    Ok(text)
}

/// The words and then two tanks.
fn at_tanks(alloc: Global, words: &[u8], a: u32, b: u32) -> Result<Vec<u8>, AllocError>
    ensures { IfOk result (λ text. text.items ≡ words.now ++ (tank_text a ++ (codes " " ++ tank_text b))) }
{
    let mut text = at_tank(alloc, words, a)?;
    text.extend_from_slice(b" ")?;
    push_tank(&mut text, b)?;
    Ok(text)
}

/// The words and then a stage.
fn at_stage(alloc: Global, words: &[u8], stage: u32) -> Result<Vec<u8>, AllocError>
    ensures { IfOk result (λ text. text.items ≡ words.now ++ stage_text stage) }
{
    let mut text = Vec::from_slice(alloc, words)?;
    push_stage(&mut text, stage)?;
    Ok(text)
}

/// The words and then two numbers.
fn at_numbers(alloc: Global, words: &[u8], a: u32, b: u32) -> Result<Vec<u8>, AllocError>
    ensures { IfOk result (λ text. text.items ≡ words.now ++ (decimal a ++ (codes " " ++ decimal b))) }
{
    let mut text = Vec::from_slice(alloc, words)?;
    push_decimal(&mut text, a)?;
    text.extend_from_slice(b" ")?;
    push_decimal(&mut text, b)?;
    Ok(text)
}

/// What is wrong with a line file, in words without an end of line: a key is written by its name at the root, else
/// behind its table, as in `tank[0].at`; a byte of a key that can't be seen is written `?`.
///
/// # Errors
///
/// Only for want of memory.
pub fn refusal_text(alloc: Global, why: &Why) -> Result<Vec<u8>, AllocError>
    ensures { IfOk result (λ text. text.items ≡ refusal_of why.now) }
{
    match why {
        Why::NotToml => Vec::from_slice(alloc, b"not toml"),
        Why::Missing { key } => at_key(alloc, b"missing ", key),
        Why::Unknown { key } => at_key(alloc, b"unknown ", key),
        Why::WrongKind { key } => at_key(alloc, b"wrong kind ", key),
        Why::Range { key, value } => at_value(alloc, b"range ", key, *value),
        Why::BadName { tank } => at_tank(alloc, b"bad name ", *tank),
        Why::TwiceNamed { a, b } => at_tanks(alloc, b"twice named ", *a, *b),
        Why::SamePlace { a, b } => at_tanks(alloc, b"same place ", *a, *b),
        Why::NoTank { stage } => at_stage(alloc, b"no tank ", *stage),
        Why::TwiceTank { stage } => at_stage(alloc, b"twice tank ", *stage),
        Why::SameTank { stage } => at_stage(alloc, b"same tank ", *stage),
        Why::EmptyWindow { stage } => at_stage(alloc, b"empty window ", *stage),
        Why::NoRoom { need, track } => at_numbers(alloc, b"no room ", *need, *track),
    }
}

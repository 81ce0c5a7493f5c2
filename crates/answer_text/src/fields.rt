// Lines of one number, constraints and walks, written at the end of a text.
ghost use Rattle.std.specs.Prelude.{◌≡◌, ◌<◌, ◌^◌, ◌++◌, length, codes, decimal, OnOk};
ghost use Rattle.std.specs.Fmt.{signed_decimal};
ghost use Rattle.text_writing.specs.Texts.{end};
ghost use Rattle.answer_text.specs.Fields.{token_text, walk_text};

use crate::words::TokenKind;
use choice_tree::{Constraint, Proof};
use std::alloc::AllocError;
use text_writing::{Worded, push_number, push_signed, push_word_number, push_word_pair};

/// Writes a number and the end of its line.
pub(crate) fn push_number_line(text: &mut Vec<u8>, number: u64) -> Result<(), AllocError>
    ensures { OnOk result (text.new.items ≡ text.old.items ++ (decimal number ++ end)) }
{
    push_number(text, number)?;
    text.push(b'\n')?;
    Ok(())
}

/// Writes a number that may be negative and the end of its line.
pub(crate) fn push_signed_line(text: &mut Vec<u8>, number: i64) -> Result<(), AllocError>
    ensures { OnOk result (text.new.items ≡ text.old.items ++ (signed_decimal number ++ end)) }
{
    push_signed(text, number)?;
    text.push(b'\n')?;
    Ok(())
}

/// Writes a constraint, with the blank before it.
fn push_token(text: &mut Vec<u8>, token: Constraint) -> Result<(), AllocError>
    ensures { OnOk result (text.new.items ≡ text.old.items ++ token_text token) }
{
    match token {
        Constraint::Min { c, k } => push_word_pair(text, TokenKind::Min.word(), c, k),
        Constraint::Max { c, k } => push_word_pair(text, TokenKind::Max.word(), c, k),
        Constraint::Entry { c } => push_word_number(text, TokenKind::Entry.word(), c as u64),
        Constraint::Visit { c, k } => push_word_pair(text, TokenKind::Visit.word(), c, k),
        Constraint::Repeat { c, k } => push_word_pair(text, TokenKind::Repeat.word(), c, k),
        Constraint::Decided { i } => push_word_number(text, TokenKind::Decided.word(), i as u64),
    }
}

/// Writes how many constraints a walk has, and each of them.
pub(crate) fn push_walk(text: &mut Vec<u8>, walk: &Proof) -> Result<(), AllocError>
    ensures { OnOk result (text.new.items ≡ text.old.items ++ walk_text walk.now) }
{
    let tokens = walk.as_slice();
    push_number(text, tokens.len() as u64)?;
    for token in tokens {
        push_token(text, *token)?;
    }
    Ok(())
}

/// Writes a walk and the end of its line.
pub(crate) fn push_walk_line(text: &mut Vec<u8>, walk: &Proof) -> Result<(), AllocError>
    ensures { OnOk result (text.new.items ≡ text.old.items ++ (walk_text walk.now ++ end)) }
{
    push_walk(text, walk)?;
    text.push(b'\n')?;
    Ok(())
}

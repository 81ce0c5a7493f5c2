// The parts of a batch, written at the end of a text.
ghost use Rattle.std.specs.Prelude.{◌≡◌, ◌++◌, length, codes, decimal, OnOk};
ghost use Rattle.text_writing.specs.Texts.{end};
ghost use Rattle.batch_lines.specs.Parts.{refusal_part, part_text, parts_text, parts_of, count_lines};

use crate::single::Single;
use line_text::{Why, refusal_text};
use std::alloc::{AllocError, Global};
use text_writing::push_word_number;

/// The status of a file that is no line.
const REFUSED: u64 = 4;

// The head of a part: which file, and with which status.
fn push_head(text: &mut Vec<u8>, number: u64, status: u64) -> Result<(), AllocError>
    ensures { OnOk result (text.new.items ≡ text.old.items ++ (codes "file " ++ (decimal number ++ (codes " status " ++ (decimal status ++ end))))) }
{
    push_word_number(text, b"file ", number)?;
    push_word_number(text, b" status ", status)?;
    text.push(b'\n')?;
    Ok(())
}

// The part of a line.
fn push_single(text: &mut Vec<u8>, number: u64, single: &Single) -> Result<(), AllocError>
    ensures { OnOk result (text.new.items ≡ text.old.items ++ part_text number single.now) }
{
    push_head(text, number, single.status as u64)?;
    text.extend_from_slice(single.text.as_slice())?;
    Ok(())
}

// The part of a file that is no line.
fn push_refusal(text: &mut Vec<u8>, alloc: Global, number: u64, why: &Why) -> Result<(), AllocError>
    ensures { OnOk result (text.new.items ≡ text.old.items ++ part_text number (refusal_part why.now)) }
{
    let why = refusal_text(alloc, why)?;
    push_head(text, number, REFUSED)?;
    text.extend_from_slice(b"line refused: ")?;
    text.extend_from_slice(why.as_slice())?;
    text.push(b'\n')?;
    Ok(())
}

/// The parts of all files: a file that is a line takes the next of the singles.
pub(crate) fn push_parts(
    text: &mut Vec<u8>,
    alloc: Global,
    whys: &[Option<Why>],
    singles: &[Single],
) -> Result<(), AllocError>
    requires { count_lines whys.now ≡ length singles.now }
    ensures { OnOk result (text.new.items ≡ text.old.items ++ parts_text 0 (parts_of whys.now singles.now)) }
{
    let mut rest = singles;
    for i in 0..whys.len() {
        match &whys[i] {
            Some(why) => push_refusal(text, alloc, i as u64, why)?,
            None => {
                let [single, others @ ..] = rest else {
                    unreachable!()
                };
                push_single(text, i as u64, single)?;
                rest = others;
            }
        }
    }
    Ok(())
}

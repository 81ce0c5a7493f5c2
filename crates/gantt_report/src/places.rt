// Words and numbers, written at the end of a text.
ghost use Rattle.std.specs.Prelude.{◌≡◌, ◌≤◌, ◌++◌, decimal, OnOk};
ghost use Rattle.std.specs.Fmt.{signed_decimal};
ghost use Rattle.gantt_report.specs.Places.{right_in};

use itoa::Buffer;
use std::alloc::AllocError;

/// Writes a word that stands right in a place of so many bytes.
#[tactic(auto, using(crate::proofs::Rows::blank_more, crate::proofs::Rows::blanks_then))]
pub(crate) fn push_right(text: &mut Vec<u8>, width: usize, word: &[u8]) -> Result<(), AllocError>
    ensures { OnOk result (text.new.items ≡ text.old.items ++ right_in width word.now) }
{
    let blanks = width.saturating_sub(word.len());
    for _blank in 0..blanks {
        text.push(b' ')?;
    }
    text.extend_from_slice(word)?;
    Ok(())
}

/// Writes a number that stands right in a place of so many bytes.
pub(crate) fn push_number_right(
    text: &mut Vec<u8>,
    width: usize,
    number: u64,
) -> Result<(), AllocError>
    ensures { OnOk result (text.new.items ≡ text.old.items ++ right_in width (decimal number)) }
{
    let mut buffer = Buffer::new();
    push_right(text, width, buffer.format(number).as_bytes())
}

/// The same of a number that may be below 0.
pub(crate) fn push_signed_right(
    text: &mut Vec<u8>,
    width: usize,
    number: i64,
) -> Result<(), AllocError>
    ensures { OnOk result (text.new.items ≡ text.old.items ++ right_in width (signed_decimal number)) }
{
    let mut buffer = Buffer::new();
    push_right(text, width, buffer.format(number).as_bytes())
}

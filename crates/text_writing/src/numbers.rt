// Numbers, and words before them. Where memory runs out, a part may be written.
ghost use Rattle.std.specs.Prelude.{◌≡◌, ◌++◌, decimal, OnOk};
ghost use Rattle.std.specs.Fmt.{signed_decimal};
ghost use Rattle.text_writing.specs.Texts.{pair_text};

use itoa::Buffer;
use std::alloc::AllocError;

/// Writes a number in decimal.
pub fn push_number(text: &mut Vec<u8>, number: u64) -> Result<(), AllocError>
    ensures { OnOk result (text.new.items ≡ text.old.items ++ decimal number) }
{
    let mut buffer = Buffer::new();
    text.extend_from_slice(buffer.format(number).as_bytes())
}

/// Writes a number that may be negative in decimal.
pub fn push_signed(text: &mut Vec<u8>, number: i64) -> Result<(), AllocError>
    ensures { OnOk result (text.new.items ≡ text.old.items ++ signed_decimal number) }
{
    let mut buffer = Buffer::new();
    text.extend_from_slice(buffer.format(number).as_bytes())
}

/// Writes two numbers with a blank between them.
pub fn push_pair(text: &mut Vec<u8>, first: u32, second: u32) -> Result<(), AllocError>
    ensures { OnOk result (text.new.items ≡ text.old.items ++ pair_text first second) }
{
    push_number(text, first as u64)?;
    text.push(b' ')?;
    push_number(text, second as u64)
}

/// Writes a word, with the blanks round it, and a number.
pub fn push_word_number(text: &mut Vec<u8>, word: &[u8], number: u64) -> Result<(), AllocError>
    ensures { OnOk result (text.new.items ≡ text.old.items ++ (word.now ++ decimal number)) }
{
    text.extend_from_slice(word)?;
    push_number(text, number)
}

/// Writes a word, with the blanks round it, and a number that may be negative.
pub fn push_word_signed(text: &mut Vec<u8>, word: &[u8], number: i64) -> Result<(), AllocError>
    ensures { OnOk result (text.new.items ≡ text.old.items ++ (word.now ++ signed_decimal number)) }
{
    text.extend_from_slice(word)?;
    push_signed(text, number)
}

/// Writes a word, with the blanks round it, and two numbers with a blank between them.
pub fn push_word_pair(
    text: &mut Vec<u8>,
    word: &[u8],
    first: u32,
    second: u32,
) -> Result<(), AllocError>
    ensures { OnOk result (text.new.items ≡ text.old.items ++ (word.now ++ pair_text first second)) }
{
    text.extend_from_slice(word)?;
    push_pair(text, first, second)
}

// Fields that are read from the front of the bytes.
ghost use Rattle.std.specs.Prelude.{◌≡◌, ◌<◌, ◌≤◌, ◌^◌, length, codes, decimal, min};
ghost use Rattle.field_reading.specs.Reading.{word_at, known_pair_at, number_at, digits_at, signed_at, kind_at};
ghost use Rattle.field_reading.specs.Gives.{Gives};

use crate::stop::Stop;
use itoa::Buffer;
use text_writing::Worded;

/// Reads this word: the bytes behind it.
#[tactic(auto, unfolding(crate::specs::Reading::word_at))]
pub fn word<'a>(word: &[u8], bytes: &'a [u8]) -> Result<&'a [u8], Stop>
    ensures { Gives (λ x. x.now) result (word_at word.now bytes.now) }
{
    let mut wanted = word;
    let mut rest = bytes;
    while let [w, others @ ..] = wanted {
        match rest {
            [b, after @ ..] if *w == *b => {
                wanted = others;
                rest = after;
            }
            _ => return Err(Stop::Broken(rest.len())),
        }
    }
    Ok(rest)
}

/// Reads this number in decimal: the bytes behind it.
pub fn known_number(n: u32, bytes: &[u8]) -> Result<&[u8], Stop>
    ensures { Gives (λ x. x.now) result (word_at (decimal n) bytes.now) }
{
    let mut buffer = Buffer::new();
    word(buffer.format(n).as_bytes(), bytes)
}

/// Reads these two numbers with a blank between them: the bytes behind them.
#[tactic(auto, unfolding(crate::specs::Reading::known_pair_at))]
pub fn known_pair(first: u32, second: u32, bytes: &[u8]) -> Result<&[u8], Stop>
    ensures { Gives (λ x. x.now) result (known_pair_at first second bytes.now) }
{
    let rest = known_number(first, bytes)?;
    let rest = word(b" ", rest)?;
    known_number(second, rest)
}

/// Reads a number in decimal from `least`, 0 or 1, to `most`, which ends before a byte that is no digit.
///
/// A number has no sign and no zero in front.
#[tactic(auto, unfolding(crate::specs::Reading::number_at))]
pub fn number(least: u32, most: u32, bytes: &[u8]) -> Result<(u32, &[u8]), Stop>
    requires { least ≤ 1 }
    ensures { Gives (λ x. (x.0, x.1.now)) result (number_at least most bytes.now) }
{
    match bytes {
        [b, rest @ ..]
            if b.is_ascii_digit()
                && u32::from(*b) >= least + 48
                && u64::from(*b) <= u64::from(most) + 48 => {
            digits(most, u32::from(*b - b'0'), rest)
        }
        _ => Err(Stop::Broken(bytes.len())),
    }
}

/// Reads the digits behind those of `n`.
#[tactic(auto, unfolding(crate::specs::Reading::digits_at))]
fn digits(most: u32, n: u32, bytes: &[u8]) -> Result<(u32, &[u8]), Stop>
    ensures { Gives (λ x. (x.0, x.1.now)) result (digits_at most n bytes.now) }
{
    let mut value = n;
    let mut rest = bytes;
    while let [b, after @ ..] = rest {
        if !b.is_ascii_digit() {
            return Ok((value, rest));
        }
        let more = u64::from(value) * 10 + u64::from(*b - b'0');
        if value == 0 || more > u64::from(most) {
            return Err(Stop::Broken(rest.len()));
        }
        value = more as u32;
        rest = after;
    }
    Ok((value, rest))
}

/// Reads a number in decimal that may be negative, of size up to `most`. A 0 has no sign.
#[tactic(auto, unfolding(crate::specs::Reading::signed_at))]
pub fn signed(most: u32, bytes: &[u8]) -> Result<(i64, &[u8]), Stop>
    ensures { Gives (λ x. (x.0, x.1.now)) result (signed_at most bytes.now) }
{
    match bytes {
        [] => Err(Stop::Broken(0)),
        [45, rest @ ..] => {
            let (n, rest) = number(1, most, rest)?;
            Ok((-i64::from(n), rest))
        }
        _ => {
            let (n, rest) = number(0, most, bytes)?;
            Ok((i64::from(n), rest))
        }
    }
}

/// Reads the word of one of these kinds. No word may begin another.
#[tactic(auto, unfolding(crate::specs::Reading::kind_at))]
pub fn kind<'a, K: Worded>(kinds: &[K], bytes: &'a [u8]) -> Result<(K, &'a [u8]), Stop>
    ensures { Gives (λ x. (x.0, x.1.now)) result (kind_at K.word kinds.now bytes.now) }
{
    let mut left = bytes.len();
    for kind in kinds {
        match word(kind.word(), bytes) {
            Ok(rest) => return Ok((*kind, rest)),
            Err(Stop::Broken(other)) => left = left.min(other),
            Err(Stop::Memory) => return Err(Stop::Memory),
        }
    }
    Err(Stop::Broken(left))
}

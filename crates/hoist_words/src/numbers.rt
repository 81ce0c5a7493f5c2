// Numbers in words.
ghost use Rattle.std.specs.Prelude.{◌∷◌, ℕ, [], MatchOption};
ghost use Rattle.hoist_words.specs.Request.{IsNumber, IsSeed, IsValue};
ghost use Rattle.hoist_words.specs.Found.{listed};

use crate::table::Limits;
use itoa::Buffer;

/// The number of each option and the seed; 0 for what the command doesn't take.
#[derive(Clone, Copy, Debug)]
pub(crate) struct Numbers {
    pub(crate) budget: u32,
    pub(crate) workers: u32,
    pub(crate) carriers: u32,
    pub(crate) upto: u32,
    pub(crate) seed: u32,
}

/// The number of an option: its default where it isn't given, and 0 where the command doesn't take it; None where its
/// value isn't the digits of a number within the limits, without a sign or a leading zero.
pub(crate) fn number_of(limits: Option<Limits>, given: Option<&str>) -> Option<u32>
    ensures { MatchOption result ((n : ℕ) → IsNumber limits (listed given.entry) n → ⊥)
        (λ n. IsNumber limits (listed given.entry) n) }
{
    let Some(limits) = limits else {
        return match given {
            None => Some(0),
            Some(_) => None,
        };
    };
    number_within(given, limits.default, limits.least, limits.most)
}

/// The seed that a word is, which is at most `greatest`; 0 where the command takes no seed. None where the word isn't
/// the digits of such a number, without a sign or a leading zero.
pub(crate) fn seed_of(greatest: Option<u32>, word: &str) -> Option<u32>
    ensures { MatchOption result ((n : ℕ) → IsSeed greatest (word.entry.now ∷ []) n → ⊥)
        (λ n. IsSeed greatest (word.entry.now ∷ []) n) }
{
    match greatest {
        None => Some(0),
        Some(most) => number_within(Some(word), 0, 0, most),
    }
}

/// The number of an option: its default where it isn't given; None where its value isn't the digits of a number from
/// `least` to `most`, without a sign or a leading zero.
pub fn number_within(given: Option<&str>, default: u32, least: u32, most: u32) -> Option<u32>
    ensures { MatchOption result ((n : ℕ) → IsValue (listed given.entry) default least most n → ⊥)
        (λ n. IsValue (listed given.entry) default least most n) }
{
    let Some(word) = given else {
        return Some(default);
    };
    let Ok(number) = word.parse::<u32>() else {
        return None;
    };
    if number < least || number > most {
        return None;
    }
    let mut buffer = Buffer::new();
    if buffer.format(number) == word {
        Some(number)
    } else {
        None
    }
}

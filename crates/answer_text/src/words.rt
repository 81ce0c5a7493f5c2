// The words of an answer's text.
ghost use Rattle.std.specs.Prelude.{◌≡◌};
ghost use Rattle.answer_text.specs.Words.{version_text, verdict_text, token_word};

use crate::answer::Verdict;
use text_writing::Worded;

/// The first line, which says whether every stage of the line has one tank.
pub fn version(single: bool) -> &'static [u8]
    ensures { result.now ≡ version_text single }
{
    if single {
        b"hoist answer 1\n"
    } else {
        b"hoist answer 2\n"
    }
}

impl Worded for Verdict {
    ghost word = { verdict_text };

    fn word(&self) -> &'static [u8]
        ensures { result.now ≡ verdict_text self.now }
    {
        match self {
            Verdict::Optimal => b"optimal",
            Verdict::Nothing => b"none",
            Verdict::Unfinished => b"open",
        }
    }
}

/// The kinds of constraint; the word of each is its letter, with the blanks round it.
#[derive(Clone, Copy, Debug, PartialEq, Eq)]
pub enum TokenKind {
    Min,
    Max,
    Entry,
    Visit,
    Repeat,
    Decided,
}

impl Worded for TokenKind {
    ghost word = { token_word };

    fn word(&self) -> &'static [u8]
        ensures { result.now ≡ token_word self.now }
    {
        match self {
            TokenKind::Min => b" m ",
            TokenKind::Max => b" x ",
            TokenKind::Entry => b" e ",
            TokenKind::Visit => b" v ",
            TokenKind::Repeat => b" r ",
            TokenKind::Decided => b" d ",
        }
    }
}

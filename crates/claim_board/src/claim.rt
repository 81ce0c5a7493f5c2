//! What a claim answers.

/// The answer of one claim on a board that numbers n jobs.
#[derive(Clone, Copy, Debug, PartialEq, Eq)]
pub enum Claim {
    /// The number, below n, that was drawn.
    Index(u32),
    /// No number was left: the word `next` was read as `seen`, which is n or more.
    Exhausted { seen: u64 },
    /// The board was read as stopped, and no claim was used.
    Stopped,
}

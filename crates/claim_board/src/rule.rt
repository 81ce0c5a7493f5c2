//! The board's rule, and the kinds of its atomic steps, as the table below it wants them.

use atomic_table::{Join, Play, Split, TableRule};
use std::collections::LinkedList;

/// What a seat knows. No value of it is made.
pub struct View {
    pub n: u32,
    pub workers: u32,
    pub list: LinkedList<u32>,
    pub left: u64,
    pub used: u64,
    pub read_stop: bool,
    pub set_stop: bool,
    pub read_end: bool,
    pub share: u64,
    pub spent: bool,
}

/// What a board is told once: how many jobs it numbers, and for how many workers.
#[derive(Clone, Copy)]
pub struct Plan {
    pub n: u32,
    pub workers: u32,
}

/// The rule of the running board.
pub struct Numbered;

impl TableRule<u64, View, Plan> for Numbered {
    ghost use Rattle.claim_board.specs.Rule.{Holds, first_view};

    ghost holds = { Holds };

    ghost first = { first_view };
}

/// A load of the word `stop`.
pub struct LoadsStop;

impl Play<u64, View> for LoadsStop {
    ghost use Rattle.claim_board.specs.Rule.{LoadedStop};

    ghost then = { LoadedStop };
}

/// A claim.
pub struct Claims;

impl Play<u64, View> for Claims {
    ghost use Rattle.claim_board.specs.Rule.{Claimed};

    ghost then = { Claimed };
}

/// The word `stop` is set.
pub struct SetsStop;

impl Play<u64, View> for SetsStop {
    ghost use Rattle.claim_board.specs.Rule.{SetStop};

    ghost then = { SetStop };
}

/// A seat notes the share that it cuts off next.
pub struct MarksShare;

impl Play<u64, View> for MarksShare {
    ghost use Rattle.claim_board.specs.Rule.{Marked};

    ghost then = { Marked };
}

/// A load of the word `next`.
pub struct LoadsNext;

impl Play<u64, View> for LoadsNext {
    ghost use Rattle.claim_board.specs.Rule.{LoadedNext};

    ghost then = { LoadedNext };
}

/// How seats are cut in two and joined.
pub struct ByShare;

impl Split<View> for ByShare {
    ghost use Rattle.claim_board.specs.Rule.{kept_part, given_part};

    ghost left = { kept_part };

    ghost right = { given_part };
}

impl Join<View> for ByShare {
    ghost use Rattle.claim_board.specs.Rule.{joined_view, spent_view};

    ghost both = { joined_view };

    ghost spent = { spent_view };
}

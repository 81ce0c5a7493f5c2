//! A worker's seat at a board.

use crate::rule::View;
use std::marker::Model;

/// The right to a number of claims on one board. It has no bytes, and contracts see what it did.
#[derive(Drop)]
pub struct Seat {
    pub(crate) token: atomic_table::Seat<u64, View>,
}

impl Model for Seat {
    ghost use Rattle.std.specs.Prelude.{◌≡◌, ◌≤◌, false, [], length};
    ghost use Rattle.claim_board.specs.Seats.{SeatData};

    ghost Value = { SeatData };

    ghost use Rattle.claim_board.specs.Rule.{seat_data};

    ghost view = { λ s. seat_data s.token.table_id s.token.me.0 };

    // It holds no slot and isn't spent.
    ghost invariant = { λ s. (s.token.me.1 ≡ []) × (s.token.me.0.spent ≡ false)
        × (length s.token.me.0.list ≤ s.token.me.0.used) };
}

//! The board that all seats share.

ghost use Rattle.std.specs.Prelude.{◌≡◌, ℕ, ◌+◌, ◌-◌, ◌<◌, ◌≤◌, min, length, true, IfOk, OnErr};
ghost use Rattle.claim_board.specs.Tidy.{EachOnceBelow};
ghost use Rattle.claim_board.specs.Seats.{HasAll, all_claims, fresh_seat, joined_seat};
ghost use Rattle.claim_board.specs.Claims.{Claimed};

use crate::claim::Claim;
use crate::rule::{
    ByShare, Claims, LoadsNext, LoadsStop, MarksShare, Numbered, Plan, SetsStop, View,
};
use crate::seat::Seat;
use atomic_table::Table;
use std::alloc::{AllocError, Global};
use std::marker::Model;

// The word that counts the claims.
const NEXT: usize = 0;

// The word that is set where the board is stopped.
const STOP: usize = 1;

/// A board that numbers n jobs for some workers. Every seat of it is made by `new` or `split`.
#[derive(Drop)]
pub struct Board {
    table: Table<u64, View, Plan, Numbered, Global>,
    n: u32,
}

impl Model for Board {
    ghost use Rattle.std.specs.Prelude.{◌≡◌};
    ghost use Rattle.claim_board.specs.Seats.{BoardData};

    ghost Value = { BoardData };

    ghost use Rattle.claim_board.specs.Rule.{board_data};

    ghost view = { λ b. board_data b.table.shared.table_id b.table.shared.key };

    ghost invariant = { λ b. (b.table.shared.table_id.words ≡ 2) × (b.table.shared.table_id.slots ≡ 0)
        × (b.n ≡ b.table.shared.key.n) };
}

impl Board {
    /// A board for the numbers below `n`, and the seat that has all its claims: `n + 1` for each
    /// of the workers, of whom there are 1 to 64.
    pub fn new(alloc: Global, n: u32, workers: u32) -> Result<(Board, Seat), AllocError>
        requires { (1 ≤ workers) × (workers ≤ 64) }
        ensures { IfOk result (λ r. (r.0.n ≡ n) × (r.0.workers ≡ workers) × (r.1 ≡ fresh_seat r.0 (all_claims r.0))) }
    {
        let plan = Plan { n, workers };
        let (table, token) = Table::of_words(alloc, &[0, 0], &plan)?;
        Ok((Board { table, n }, Seat { token }))
    }

    /// Draws the next number by one atomic step, unless the board was read as stopped. `Index` has
    /// a number below n that this seat hadn't drawn before. After `Exhausted` a seat with all
    /// claims has each number exactly once.
    pub fn claim(&self, seat: &mut Seat) -> Claim
        requires of_board { seat.old.board ≡ self.now }
        requires left { 0 < seat.old.left }
        ensures answer { Claimed self.now seat.old result seat.new }
        ensures same { seat.new.board ≡ seat.old.board }
        ensures counts { seat.new.left + seat.new.used ≡ seat.old.left + seat.old.used }
        ensures one_at_most { seat.old.left ≤ seat.new.left + 1 }
    {
        let shared = &self.table.shared;
        if shared.load::<LoadsStop>(&mut seat.token, STOP) != 0 {
            return Claim::Stopped;
        }
        let found = shared.fetch_add::<Claims>(&mut seat.token, NEXT, 1);
        if found < u64::from(self.n) {
            Claim::Index(found as u32)
        } else {
            Claim::Exhausted { seen: found }
        }
    }

    /// Stops the board: later claims answer `Stopped`. Only a seat that has used a claim may do so.
    pub fn stop(&self, seat: &mut Seat)
        requires of_board { seat.old.board ≡ self.now }
        requires used { 0 < seat.old.used }
        ensures { seat.new ≡ record seat.old { set_stop = true } }
    {
        self.table
            .shared
            .fetch_or::<SetsStop>(&mut seat.token, STOP, 1);
    }

    /// Cuts a new seat off, with `share` of the claims left.
    pub fn split(&self, _alloc: Global, seat: &mut Seat, share: u64) -> Result<Seat, AllocError>
        requires of_board { seat.old.board ≡ self.now }
        requires left { share ≤ seat.old.left }
        ensures given { IfOk result (λ new. new ≡ fresh_seat self.now share) }
        ensures kept { IfOk result (λ _. seat.new ≡ record seat.old { left = seat.old.left - share }) }
        ensures few { length seat.new.list ≤ seat.new.used }
        ensures err { OnErr result (seat.new ≡ seat.old) }
    {
        let shared = &self.table.shared;
        shared.compare_exchange::<MarksShare>(&mut seat.token, NEXT, share, share);
        let token = shared.split_seat::<ByShare>(&mut seat.token);
        Ok(Seat { token })
    }

    /// Takes another seat in: its list, its claims and its notes. A seat with all claims that has
    /// read the end of the numbers has each number exactly once.
    pub fn join(&self, seat: &mut Seat, other: Seat)
        requires of_board { (seat.old.board ≡ self.now) × (other.board ≡ self.now) }
        ensures both { seat.new ≡ joined_seat seat.old other }
        ensures whole { seat.new.read_end ≡ true → HasAll seat.new → EachOnceBelow self.now.n seat.new.list }
    {
        let shared = &self.table.shared;
        let Seat { token } = other;
        shared.join_seat::<ByShare>(&mut seat.token, token);
        shared.load::<LoadsNext>(&mut seat.token, NEXT);
    }

    /// Ends the board, by the seat with all claims. It answers how many claims were used: each
    /// number below that and below n stands in the seat's list exactly once.
    pub fn close(self, seat: Seat) -> u64
        requires of_board { seat.board ≡ self }
        requires all { HasAll seat }
        ensures used { result ≡ seat.used }
        ensures each { EachOnceBelow (min result self.n) seat.list }
        ensures past { seat.read_end ≡ true → self.n < result }
    {
        let Board { table, n: _ } = self;
        let Seat { token } = seat;
        let closed = table.close_with(token);
        let next = closed.word(NEXT);
        closed.free();
        next
    }
}

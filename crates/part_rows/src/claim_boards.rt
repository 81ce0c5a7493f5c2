//! One board by hand, and two threads at one board.

ghost use Rattle.std.specs.Prelude.{◌≡◌, ◌<◌};

use claim_board::{Board, Claim, Seat};
use std::test::Fail;
use std::thread::{Threads, join};

#[test]
fn board_by_hand(rt: HostRuntime) -> Result<(), Fail> {
    let alloc = rt.alloc();
    let (board, mut first) = Board::new(alloc, 2, 2)?;
    let mut second = board.split(alloc, &mut first, 3)?;
    assert_eq!(rt; board.claim(&mut first), Claim::Index(0));
    let Claim::Index(drawn) = board.claim(&mut second) else {
        panic!(rt; "the second claim draws a number");
    };
    assert_eq!(rt; drawn, 1);
    assert_eq!(rt; board.claim(&mut first), Claim::Exhausted { seen: 2 });
    board.stop(&mut second);
    assert_eq!(rt; board.claim(&mut first), Claim::Stopped);
    board.join(&mut first, second);
    assert_eq!(rt; board.close(first), 3);
    Ok(())
}

// One claim, by a seat that is handed on.
fn claimed_once(board: &Board, mut seat: Seat) -> (Claim, Seat)
    requires { (seat.board ≡ board.now) × (0 < seat.left) }
    ensures of_board { result.1.board ≡ board.now }
{
    let claim = board.claim(&mut seat);
    (claim, seat)
}

// One claim by each seat, in two threads.
fn claimed_by_two<R: Threads>(
    rt: &R,
    board: &Board,
    one: Seat,
    other: Seat,
) -> ((Claim, Seat), (Claim, Seat))
    requires { (one.board ≡ board.now) × (other.board ≡ board.now) × (0 < one.left) × (0 < other.left) }
    ensures { (result.0.1.board ≡ board.now) × (result.1.1.board ≡ board.now) }
{
    join(
        rt,
        move || -> (Claim, Seat)
            requires { (one.board ≡ board.now) × (0 < one.left) }
            ensures { result.1.board ≡ one.board }
        { claimed_once(board, one) },
        move || -> (Claim, Seat)
            requires { (other.board ≡ board.now) × (0 < other.left) }
            ensures { result.1.board ≡ other.board }
        { claimed_once(board, other) },
    )
}

#[test]
fn two_threads_claim(rt: HostRuntime) -> Result<(), Fail> {
    let alloc = rt.alloc();
    let (board, mut seat) = Board::new(alloc, 2, 2)?;
    let other = board.split(alloc, &mut seat, 3)?;
    let ((first, mut seat), (second, other)) = claimed_by_two(&rt, &board, seat, other);
    board.join(&mut seat, other);
    assert!(rt; first != second && first != Claim::Stopped && second != Claim::Stopped);
    Ok(())
}

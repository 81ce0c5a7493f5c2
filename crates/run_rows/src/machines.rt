ghost use Rattle.std.specs.Prelude.{◌≡◌, ◌≤◌, ◌<◌, IsTrue, IfOk, length, get_or, None, true, false};
ghost use Rattle.tick_machine.specs.declared.order.Go.TheVariants.{Stay};
ghost use Rattle.tick_machine.specs.Layout.{layout_of};
ghost use Rattle.tick_machine.specs.Scene.{command_of, IsSizedOrder};
ghost use Rattle.tick_machine.specs.Rules.{AreApart};

use hoist_base::Line;
use std::alloc::{AllocError, Global};
use std::mem;
use std::test::Fail;
use tick_machine::{Breach, Driver, Event, Go, Order, Played, What, empty, play, step};
use worked_lines::{one_bath, one_station, two_hoists, two_stations};

/// A part of an order: a put, an off, the begin of a hoist towards a tank, or the motion of a hoist.
#[derive(Clone, Copy)]
enum Act {
    Put,
    Off,
    Begin(u32, u32),
    Move(u32, Go),
}

use Act::{Begin, Move, Off, Put};

/// Orders nothing.
fn clear(order: &mut Order, hoists: u32)
    requires { IsSizedOrder hoists order.old }
    ensures { IsSizedOrder hoists order.new }
{
    for h in 0..hoists {
        order.go[h as usize] = Go::Stay;
        order.begin[h as usize] = None;
    }
    order.off = false;
    order.put = false;
}

/// Adds a part to an order.
fn apply(act: Act, order: &mut Order, hoists: u32)
    requires { IsSizedOrder hoists order.old }
    ensures { IsSizedOrder hoists order.new }
{
    match act {
        Act::Put => order.put = true,
        Act::Off => order.off = true,
        Act::Begin(h, tank) => {
            if h < hoists {
                order.begin[h as usize] = Some(tank);
            }
        }
        Act::Move(h, go) => {
            if h < hoists {
                order.go[h as usize] = go;
            }
        }
    }
}

/// The order that the acts make for a tick.
fn set_order(acts: &[(u32, Act)], tick: u32, order: &mut Order, hoists: u32)
    requires { IsSizedOrder hoists order.old }
    ensures { IsSizedOrder hoists order.new }
{
    clear(order, hoists);
    for (at, act) in acts {
        if *at == tick {
            apply(*act, order, hoists);
        }
    }
}

/// Whether positions are spaced.
fn are_apart(line: &Line, at: &[u32]) -> bool
    requires { length at.now ≡ line.now.hoists }
    ensures { IsTrue result → AreApart (layout_of line.now) (λ h. get_or at.now h 0) }
{
    let hoists = line.hoists() as usize;
    for h in 0..hoists {
        if at[h] > line.track() {
            return false;
        }
        if h + 1 < hoists {
            if u64::from(at[h]) + u64::from(line.gap()) > u64::from(at[h + 1]) {
                return false;
            }
        }
    }
    true
}

/// Steps from the empty frame by acts up to the tick `last`: the tick and the breach at which it ends.
fn follow(
    alloc: Global,
    line: &Line,
    at: &[u32],
    acts: &[(u32, Act)],
    last: u32,
) -> Result<(u32, Option<Breach>), AllocError> {
    let hoists = line.hoists();
    if at.len() != hoists as usize || !are_apart(line, at) || last == u32::MAX {
        return Ok((u32::MAX, None));
    }
    let mut frame = empty(alloc, line, at)?;
    let mut next = empty(alloc, line, at)?;
    let mut order = Order::idle(alloc, hoists)?;
    for tick in 0..last + 1 {
        set_order(acts, tick, &mut order, hoists);
        match step(line, &frame, &order, &mut next) {
            Err(breach) => return Ok((tick, Some(breach))),
            Ok(()) => mem::swap(&mut frame, &mut next),
        }
    }
    Ok((last, None))
}

/// A line, positions and acts, and the tick and the breach at which they end.
#[derive(Clone, Copy)]
struct Case<'a> {
    line: &'a Line,
    at: &'a [u32],
    acts: &'a [(u32, Act)],
    tick: u32,
    breach: Option<Breach>,
}

#[test]
fn breaches_of_one_hoist(rt: HostRuntime) -> Result<(), Fail> {
    let alloc = rt.alloc();
    let stations = two_stations(alloc).ok_or("two stations")?;
    let station = one_station(alloc).ok_or("one station")?;
    let line = &stations;
    let at = &[0u32][..];
    let cases = [
        // no tank of the next stage
        Case {
            line,
            at,
            acts: &[(0, Put), (2, Begin(0, 0))],
            tick: 2,
            breach: Some(Breach::NoWay { hoist: 0, tank: 0 }),
        },
        Case {
            line,
            at,
            acts: &[(0, Put), (2, Begin(0, 7))],
            tick: 2,
            breach: Some(Breach::NoWay { hoist: 0, tank: 7 }),
        },
        // a carrying hoist is ordered to go, or to begin before its carry ends
        Case {
            line,
            at,
            acts: &[(0, Put), (2, Begin(0, 1)), (3, Move(0, Go::High))],
            tick: 3,
            breach: Some(Breach::Busy { hoist: 0 }),
        },
        Case {
            line,
            at,
            acts: &[(0, Put), (2, Begin(0, 1)), (7, Begin(0, 1))],
            tick: 7,
            breach: Some(Breach::Busy { hoist: 0 }),
        },
        // where it ends it may begin, but no move leads on from the last stage
        Case {
            line,
            at,
            acts: &[(0, Put), (2, Begin(0, 1)), (8, Begin(0, 1))],
            tick: 8,
            breach: Some(Breach::NoMove {
                carrier: 0,
                stage: 1,
            }),
        },
        Case {
            line,
            at,
            acts: &[(0, Move(0, Go::Low))],
            tick: 0,
            breach: Some(Breach::Edge { hoist: 0, at: 0 }),
        },
        Case {
            line,
            at: &[4],
            acts: &[(0, Move(0, Go::High))],
            tick: 0,
            breach: Some(Breach::Edge { hoist: 0, at: 4 }),
        },
        Case {
            line,
            at,
            acts: &[(0, Off)],
            tick: 0,
            breach: Some(Breach::NoCarrier { tank: 1 }),
        },
        // the tank holds a carrier, but of the first stage
        Case {
            line: &station,
            at,
            acts: &[(0, Put), (5, Off)],
            tick: 5,
            breach: Some(Breach::NoCarrier { tank: 0 }),
        },
        Case {
            line,
            at,
            acts: &[(0, Put), (2, Begin(0, 1)), (9, Off)],
            tick: 9,
            breach: Some(Breach::Early {
                carrier: 0,
                stage: 1,
                age: 1,
                bound: 2,
            }),
        },
        Case {
            line,
            at,
            acts: &[(0, Put), (2, Begin(0, 1)), (10, Off)],
            tick: 10,
            breach: None,
        },
        Case {
            line,
            at,
            acts: &[(0, Put), (1, Begin(0, 1))],
            tick: 1,
            breach: Some(Breach::Early {
                carrier: 0,
                stage: 0,
                age: 1,
                bound: 2,
            }),
        },
        Case {
            line,
            at,
            acts: &[(0, Put), (1, Put)],
            tick: 1,
            breach: Some(Breach::Held {
                tank: 0,
                carrier: 0,
            }),
        },
        // the tank is free once the carrier is lifted out
        Case {
            line,
            at,
            acts: &[(0, Put), (2, Begin(0, 1)), (2, Put)],
            tick: 2,
            breach: Some(Breach::Held {
                tank: 0,
                carrier: 0,
            }),
        },
        Case {
            line,
            at,
            acts: &[(0, Put), (2, Begin(0, 1)), (3, Put)],
            tick: 3,
            breach: None,
        },
        Case {
            line,
            at,
            acts: &[(0, Begin(0, 1))],
            tick: 0,
            breach: Some(Breach::NotThere { hoist: 0, at: 0 }),
        },
        Case {
            line,
            at: &[3],
            acts: &[(0, Put), (2, Begin(0, 1))],
            tick: 2,
            breach: Some(Breach::NotThere { hoist: 0, at: 3 }),
        },
        // the off comes before the put, and a busy hoist before both
        Case {
            line,
            at,
            acts: &[(0, Put), (1, Put), (1, Off)],
            tick: 1,
            breach: Some(Breach::NoCarrier { tank: 1 }),
        },
        Case {
            line,
            at,
            acts: &[(0, Put), (2, Begin(0, 1)), (3, Move(0, Go::Low)), (3, Off)],
            tick: 3,
            breach: Some(Breach::Busy { hoist: 0 }),
        },
    ];
    for case in &cases {
        let (tick, breach) = follow(alloc, case.line, case.at, case.acts, case.tick)?;
        assert_eq!(rt; tick, case.tick);
        assert_eq!(rt; breach, case.breach);
    }
    Ok(())
}

#[test]
fn breaches_of_baths_and_of_two_hoists(rt: HostRuntime) -> Result<(), Fail> {
    let alloc = rt.alloc();
    let bath = one_bath(alloc).ok_or("one bath")?;
    let pair = two_hoists(alloc).ok_or("two hoists")?;
    let line = &bath;
    let at = &[0u32][..];
    let two = &pair;
    let first = (0, Put);
    let second = (0, Begin(0, 1));
    let cases = [
        // in the bath since tick 5: at age 11 it is late, whether a lift begins or not
        Case {
            line,
            at,
            acts: &[first, second],
            tick: 16,
            breach: Some(Breach::Late {
                carrier: 0,
                stage: 1,
                age: 11,
                bound: 10,
            }),
        },
        Case {
            line,
            at,
            acts: &[first, second, (16, Begin(0, 2))],
            tick: 16,
            breach: Some(Breach::Late {
                carrier: 0,
                stage: 1,
                age: 11,
                bound: 10,
            }),
        },
        Case {
            line,
            at,
            acts: &[first, second, (15, Begin(0, 2))],
            tick: 20,
            breach: None,
        },
        // a begin that can't be made comes before a carrier that is late
        Case {
            line,
            at,
            acts: &[first, second, (16, Begin(0, 1))],
            tick: 16,
            breach: Some(Breach::NoWay { hoist: 0, tank: 1 }),
        },
        // the bath is held when the next carrier is lowered
        Case {
            line,
            at,
            acts: &[
                first,
                second,
                (1, Put),
                (6, Move(0, Go::Low)),
                (7, Move(0, Go::Low)),
                (8, Move(0, Go::Low)),
                (8, Begin(0, 1)),
            ],
            tick: 12,
            breach: Some(Breach::Held {
                tank: 1,
                carrier: 0,
            }),
        },
        // exactly the gap is enough
        Case {
            line: two,
            at: &[0, 3],
            acts: &[(0, Move(0, Go::High))],
            tick: 0,
            breach: None,
        },
        Case {
            line: two,
            at: &[0, 3],
            acts: &[(0, Move(0, Go::High)), (1, Move(0, Go::High))],
            tick: 1,
            breach: Some(Breach::Near {
                hoist: 0,
                low: 2,
                high: 3,
            }),
        },
        // the lowest hoist, and an edge before a gap
        Case {
            line: two,
            at: &[0, 6],
            acts: &[(0, Move(0, Go::Low)), (0, Move(1, Go::High))],
            tick: 0,
            breach: Some(Breach::Edge { hoist: 0, at: 0 }),
        },
        Case {
            line: two,
            at: &[4, 6],
            acts: &[(0, Move(0, Go::High)), (0, Move(1, Go::High))],
            tick: 0,
            breach: Some(Breach::Edge { hoist: 1, at: 6 }),
        },
        Case {
            line: two,
            at: &[0, 3],
            acts: &[(0, Begin(0, 1)), (0, Begin(1, 2))],
            tick: 0,
            breach: Some(Breach::NotThere { hoist: 0, at: 0 }),
        },
    ];
    for case in &cases {
        let (tick, breach) = follow(alloc, case.line, case.at, case.acts, case.tick)?;
        assert_eq!(rt; tick, case.tick);
        assert_eq!(rt; breach, case.breach);
    }
    Ok(())
}

/// Drives one hoist, which stays at 0, by a put in each tick.
#[derive(Clone, Copy)]
struct Putting {
    last: u64,
}

impl Driver for Putting {
    ghost hoists = { λ _. 1 };

    ghost first_tick = { λ _. 0 };

    ghost last_tick = { λ putting. putting.last };

    ghost place = { λ _ h. 0 };

    ghost command = { λ _ t. record { go = λ h. Stay; begin = λ h. None; off = false; put = true } };

    fn first(&self) -> u64 {
        0
    }

    fn last(&self) -> u64 {
        self.last
    }

    fn at(&self, _h: u32) -> u32 {
        0
    }

    fn order(&self, _tick: u64, into: &mut Order) {
        into.go[0] = Go::Stay;
        into.begin[0] = None;
        into.off = false;
        into.put = true;
    }
}

/// The run of puts up to the tick `last`, on a line of one hoist.
fn puts(alloc: Global, line: &Line, last: u64) -> Result<Option<Played>, AllocError> {
    if line.hoists() != 1 || last > 1000 {
        return Ok(None);
    }
    let played = play(alloc, line, &Putting { last })?;
    Ok(Some(played))
}

#[test]
fn played_to_the_end_or_to_a_breach(rt: HostRuntime) -> Result<(), Fail> {
    let alloc = rt.alloc();
    let line = two_stations(alloc).ok_or("two stations")?;
    match puts(alloc, &line, 0)? {
        Some(Played::Done { log, end }) => {
            assert_eq!(rt;
                log.as_slice(),
                [Event {
                    tick: 0,
                    what: What::Put { carrier: 0, },
                },]
                .as_slice()
            );
            assert_eq!(rt; end.next, 1);
        }
        _ => assert!(rt; false),
    }
    match puts(alloc, &line, 3)? {
        Some(Played::Refused { tick, breach }) => {
            assert_eq!(rt; tick, 1);
            assert_eq!(rt;
                breach,
                Breach::Held {
                    tank: 0,
                    carrier: 0,
                }
            );
        }
        _ => assert!(rt; false),
    }
    Ok(())
}

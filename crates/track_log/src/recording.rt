// Logs of what a driver orders.
ghost use Rattle.std.specs.Prelude.{◌≡◌, ◌+◌, ◌-◌, ◌<◌, ◌≤◌, ◌^◌, ◌++◌, ℕ, decimal, flat_map, IfOk, OnOk};
ghost use Rattle.tick_machine.specs.declared.order.Go.TheVariants.{Stay};
ghost use Rattle.tick_machine.specs.Layout.{layout_of};
ghost use Rattle.tick_machine.specs.Scene.{IsSizedOrder};
ghost use Rattle.tick_machine.specs.Rules.{AreApart};
ghost use Rattle.tick_machine.specs.Play as plays;
ghost use Rattle.track_log.specs.Logs as logs;
ghost use Rattle.track_log.specs.Reading.{line_of};
ghost use Rattle.track_log.specs.Recording.{places_of, lines_from, recorded, BeginsAtTanks, OrdersThere, GoesAs};

use hoist_base::Line;
use std::alloc::{AllocError, Global};
use text_writing::push_word_number;
use tick_machine::{Driver, Go, Order};

/// The letter of a hoist, as a text.
fn letter(go: Go) -> &'static [u8]
    ensures { result.now ≡ logs.go_word go }
{
    match go {
        Go::Stay => b"s",
        Go::Low => b"l",
        Go::High => b"h",
    }
}

/// Writes the letters of all hoists.
fn push_letters(text: &mut Vec<u8>, go: &[Go]) -> Result<(), AllocError>
    ensures { OnOk result (text.new.items ≡ text.old.items ++ flat_map logs.go_word go.now) }
{
    for one in go {
        text.extend_from_slice(letter(*one))?;
    }
    Ok(())
}

/// Writes that hoist `h` begins a move to a tank.
fn push_begin(text: &mut Vec<u8>, h: u64, tank: u32) -> Result<(), AllocError>
    ensures { OnOk result (text.new.items ≡ text.old.items ++ (logs.begin_front h ++ decimal tank)) }
{
    push_word_number(text, b" begin ", h)?;
    push_word_number(text, b" ", tank as u64)
}

/// Writes the begins of all hoists.
#[tactic(auto, using(crate::proofs::Recorded::no_begin, crate::proofs::Recorded::one_begin, crate::proofs::Recorded::all_begun))]
fn push_begins(text: &mut Vec<u8>, tanks: &[Option<u32>]) -> Result<(), AllocError>
    ensures { OnOk result (text.new.items ≡ text.old.items ++ logs.begins_text 0 tanks.now) }
{
    for h in 0..tanks.len() {
        if let Some(tank) = tanks[h] {
            push_begin(text, h as u64, tank)?;
        }
    }
    Ok(())
}

/// Writes the line of a tick.
fn push_tick(text: &mut Vec<u8>, order: &Order) -> Result<(), AllocError>
    ensures { OnOk result (text.new.items ≡ text.old.items ++ logs.tick_text (line_of order.now)) }
{
    push_letters(text, order.go.as_slice())?;
    if order.off {
        text.extend_from_slice(b" off")?;
    }
    if order.put {
        text.extend_from_slice(b" put")?;
    }
    push_begins(text, order.begin.as_slice())?;
    text.push(b'\n')?;
    Ok(())
}

/// Writes where the hoists are at the first tick.
#[tactic(auto, using(crate::proofs::Recorded::one_place))]
fn push_places<D: Driver>(text: &mut Vec<u8>, driver: &D, hoists: u32) -> Result<(), AllocError>
    requires { hoists ≡ D.hoists driver.now }
    ensures { OnOk result (text.new.items ≡ text.old.items
        ++ flat_map logs.position_text (places_of hoists (D.place driver.now))) }
{
    for h in 0..hoists {
        push_word_number(text, b" ", driver.at(h) as u64)?;
    }
    Ok(())
}

/// Writes the lines of so many ticks from the tick `first` on.
fn push_lines<D: Driver>(
    alloc: Global,
    text: &mut Vec<u8>,
    driver: &D,
    hoists: u32,
    first: u64,
    ticks: u64,
) -> Result<(), AllocError>
    requires hoists { hoists ≡ D.hoists driver.now }
    requires small { first + ticks ≤ 2 ^ 64 }
    ensures text { OnOk result (text.new.items
        ≡ text.old.items ++ flat_map logs.tick_text (lines_from hoists (D.command driver.now) first ticks)) }
    ensures there { OnOk result (OrdersThere hoists (D.command driver.now) first ticks) }
{
    let mut order = Order::idle(alloc, hoists)?;
    for t in 0..ticks {
        driver.order(first + t, &mut order);
        push_tick(text, &order)?;
    }
    Ok(())
}

/// The text of the log of what a driver orders, from its first tick, which is tick 0 of the log, to its last.
///
/// Followed, the log goes as the play of the driver does: to its last tick and the frame there, or to the same breach.
pub fn write_log<D: Driver>(alloc: Global, line: &Line, driver: &D) -> Result<Vec<u8>, AllocError>
    requires order { D.first_tick driver.now ≤ D.last_tick driver.now }
    requires few { D.last_tick driver.now - D.first_tick driver.now < logs.most_ticks }
    requires apart { AreApart (layout_of line.now) (D.place driver.now) }
    requires hoists { D.hoists driver.now ≡ line.now.hoists }
    requires still { (h : ℕ) → h < line.now.hoists → (D.command driver.now (D.first_tick driver.now)).go h ≡ Stay }
    requires tanks { BeginsAtTanks line.now (D.command driver.now) (D.first_tick driver.now) (D.last_tick driver.now) }
    ensures text { IfOk result (λ text. logs.IsTextOf line.now text.items
        (recorded line.now.hoists (D.place driver.now) (D.command driver.now) (D.first_tick driver.now)
        (D.last_tick driver.now))) }
    ensures followed { IfOk result (λ text. GoesAs line.now
        (recorded line.now.hoists (D.place driver.now) (D.command driver.now) (D.first_tick driver.now)
        (D.last_tick driver.now)) (D.first_tick driver.now) (D.last_tick driver.now)
        (plays.run (layout_of line.now) (D.place driver.now) (D.command driver.now) (D.first_tick driver.now)
        (D.last_tick driver.now))) }
{
    let hoists = line.hoists();
    let first = driver.first();
    let last = driver.last();
    let mut text = Vec::from_slice(alloc, b"hoist log 1\nat")?;
    push_places(&mut text, driver, hoists)?;
    text.push(b'\n')?;
    push_lines(alloc, &mut text, driver, hoists, first, last - first + 1)?;
    text.extend_from_slice(b"end\n")?;
    Ok(text)
}

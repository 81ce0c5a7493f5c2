// Events, written at the end of a text.
ghost use Rattle.std.specs.Prelude.{◌≡◌, ◌++◌, flat_map, OnOk};
ghost use Rattle.text_writing.specs.Texts.{pair_text};
ghost use Rattle.run_text.specs.RunText.{what_text, event_line};

use std::alloc::AllocError;
use text_writing::{push_number, push_word_number};
use tick_machine::{Event, What};

// A word, with the blanks round it, and the numbers of a carrier and of its stage or step.
fn push_pair(text: &mut Vec<u8>, word: &[u8], carrier: u64, place: u32) -> Result<(), AllocError>
    ensures { OnOk result (text.new.items ≡ text.old.items ++ (word.now ++ pair_text carrier place)) }
{
    push_word_number(text, word, carrier)?;
    push_word_number(text, b" ", place as u64)?;
    Ok(())
}

fn push_what(text: &mut Vec<u8>, what: What) -> Result<(), AllocError>
    ensures { OnOk result (text.new.items ≡ text.old.items ++ what_text what) }
{
    match what {
        What::Set { carrier, stage } => push_pair(text, b" set ", carrier, stage)?,
        What::Off { carrier } => push_word_number(text, b" off ", carrier)?,
        What::Put { carrier } => push_word_number(text, b" put ", carrier)?,
        What::Begin {
            carrier,
            step,
            hoist,
        } => {
            push_pair(text, b" begin ", carrier, step)?;
            push_word_number(text, b" hoist ", hoist as u64)?;
        }
    }
    Ok(())
}

fn push_event(text: &mut Vec<u8>, event: Event) -> Result<(), AllocError>
    ensures { OnOk result (text.new.items ≡ text.old.items ++ event_line event) }
{
    push_number(text, event.tick)?;
    push_what(text, event.what)?;
    text.push(b'\n')?;
    Ok(())
}

/// The events in their order, a line each.
pub(crate) fn push_events(text: &mut Vec<u8>, events: &[Event]) -> Result<(), AllocError>
    ensures { OnOk result (text.new.items ≡ text.old.items ++ flat_map event_line events.now) }
{
    for event in events {
        push_event(text, *event)?;
    }
    Ok(())
}

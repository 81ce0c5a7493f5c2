// The lines of a timetable, written at the end of a text.
ghost use Rattle.std.specs.Prelude.{◌≡◌, ℕ, ◌+◌, ◌<◌, ◌≤◌, ◌++◌, ◌*◌, ◌==◌, length, codes, decimal, OnOk, flat_map};
ghost use Rattle.std.specs.List.{range_with_len, position_or_len};
ghost use Rattle.hoist_base.specs.LineData.{last_stage, IsStageOf};
ghost use Rattle.timetable.specs.TimetableData.{timetable_of, IsTimetableOf};
ghost use Rattle.text_writing.specs.Texts.{end, pair_text};
ghost use Rattle.answer_text.specs.Tables.{carrier_line, choice_number, choice_line, move_line, path_line, each_below};
ghost use Rattle.answer_text.specs.Tables.{table_text};

use crate::fields::push_number_line;
use hoist_base::{Line, MoveId, VisitId};
use std::alloc::AllocError;
use text_writing::{push_number, push_pair};
use timetable::Timetable;

fn push_carrier(text: &mut Vec<u8>, t: &Timetable, c: u32) -> Result<(), AllocError>
    requires { c < length t.now.put }
    ensures { OnOk result (text.new.items ≡ text.old.items ++ carrier_line (timetable_of t.now) c) }
{
    text.extend_from_slice(b"carrier ")?;
    push_number(text, c as u64)?;
    text.extend_from_slice(b" put ")?;
    push_number(text, t.put(c))?;
    text.extend_from_slice(b" off ")?;
    push_number_line(text, t.off(c))?;
    Ok(())
}

#[tactic(auto, using(crate::proofs::RowLemmas::one_more))]
fn push_carriers(text: &mut Vec<u8>, t: &Timetable, carriers: u32) -> Result<(), AllocError>
    requires { carriers ≤ length t.now.put }
    ensures { OnOk result (text.new.items ≡ text.old.items ++ each_below carriers (carrier_line (timetable_of t.now))) }
{
    for c in 0..carriers {
        push_carrier(text, t, c)?;
    }
    Ok(())
}

/// The place of a tank in a stage's list.
fn number_of(tanks: &[u32], tank: u32) -> u64
    ensures { result ≡ position_or_len (λ j. j == tank) tanks.now }
{
    for i in 0..tanks.len() {
        if tanks[i] == tank {
            return i as u64;
        }
    }
    tanks.len() as u64
}

fn push_choice(
    text: &mut Vec<u8>,
    line: &Line,
    t: &Timetable,
    c: u32,
    k: u32,
) -> Result<(), AllocError>
    requires carrier { c < length t.now.put }
    requires stage { (k ≤ t.now.steps) × (k < length line.now.stages) }
    ensures { OnOk result (text.new.items ≡ text.old.items ++ choice_line line.now (timetable_of t.now) c k) }
{
    let tanks = line.stages()[k as usize].tanks.as_slice();
    if tanks.len() > 1 {
        text.extend_from_slice(b"choice ")?;
        push_pair(text, c, k)?;
        text.push(b' ')?;
        push_number_line(
            text,
            number_of(
                tanks,
                t.tank(VisitId {
                    carrier: c,
                    stage: k,
                }),
            ),
        )?;
    }
    Ok(())
}

#[tactic(auto, using(crate::proofs::RowLemmas::one_more))]
fn push_choices_of(text: &mut Vec<u8>, line: &Line, t: &Timetable, c: u32) -> Result<(), AllocError>
    requires carrier { c < length t.now.put }
    requires stages { length line.now.stages ≡ t.now.steps + 1 }
    ensures { OnOk result (text.new.items ≡ text.old.items
        ++ each_below (length line.now.stages) (choice_line line.now (timetable_of t.now) c)) }
{
    for k in 0..line.inner() + 2 {
        push_choice(text, line, t, c, k)?;
    }
    Ok(())
}

#[tactic(auto, using(crate::proofs::RowLemmas::one_more))]
fn push_choices(
    text: &mut Vec<u8>,
    line: &Line,
    t: &Timetable,
    carriers: u32,
) -> Result<(), AllocError>
    requires carriers { carriers ≤ length t.now.put }
    requires stages { length line.now.stages ≡ t.now.steps + 1 }
    ensures { OnOk result (text.new.items ≡ text.old.items
        ++ each_below carriers (λ c. each_below (length line.now.stages)
        (choice_line line.now (timetable_of t.now) c))) }
{
    for c in 0..carriers {
        push_choices_of(text, line, t, c)?;
    }
    Ok(())
}

fn push_move(text: &mut Vec<u8>, t: &Timetable, m: MoveId) -> Result<(), AllocError>
    requires { (m.carrier < length t.now.put) × (m.step < t.now.steps) }
    ensures { OnOk result (text.new.items ≡ text.old.items ++ move_line (timetable_of t.now) m.carrier m.step) }
{
    text.extend_from_slice(b"move ")?;
    push_pair(text, m.carrier, m.step)?;
    text.extend_from_slice(b" start ")?;
    push_number(text, t.start(m))?;
    text.extend_from_slice(b" hoist ")?;
    push_number_line(text, t.hoist(m) as u64)?;
    Ok(())
}

#[tactic(auto, using(crate::proofs::RowLemmas::one_more))]
fn push_moves_of(text: &mut Vec<u8>, t: &Timetable, c: u32, steps: u32) -> Result<(), AllocError>
    requires carrier { c < length t.now.put }
    requires steps { steps ≤ t.now.steps }
    ensures { OnOk result (text.new.items ≡ text.old.items ++ each_below steps (move_line (timetable_of t.now) c)) }
{
    for k in 0..steps {
        push_move(
            text,
            t,
            MoveId {
                carrier: c,
                step: k,
            },
        )?;
    }
    Ok(())
}

#[tactic(auto, using(crate::proofs::RowLemmas::one_more))]
fn push_moves(
    text: &mut Vec<u8>,
    t: &Timetable,
    carriers: u32,
    steps: u32,
) -> Result<(), AllocError>
    requires carriers { carriers ≤ length t.now.put }
    requires steps { steps ≤ t.now.steps }
    ensures { OnOk result (text.new.items ≡ text.old.items
        ++ each_below carriers (λ c. each_below steps (move_line (timetable_of t.now) c))) }
{
    for c in 0..carriers {
        push_moves_of(text, t, c, steps)?;
    }
    Ok(())
}

fn push_position(text: &mut Vec<u8>, at: u32) -> Result<(), AllocError>
    ensures { OnOk result (text.new.items ≡ text.old.items ++ (codes " " ++ decimal at)) }
{
    text.push(b' ')?;
    push_number(text, at as u64)?;
    Ok(())
}

#[tactic(auto, using(crate::proofs::RowLemmas::one_more))]
fn push_positions(text: &mut Vec<u8>, t: &Timetable, h: u32) -> Result<(), AllocError>
    requires { (h + 1) * t.now.period ≤ length t.now.path }
    ensures { OnOk result (text.new.items ≡ text.old.items
        ++ flat_map (λ tick. codes " " ++ decimal ((timetable_of t.now).path h tick)) (range_with_len 0 t.now.period)) }
{
    for tick in 0..t.period() {
        push_position(text, t.path(h, tick))?;
    }
    Ok(())
}

fn push_path(text: &mut Vec<u8>, t: &Timetable, h: u32) -> Result<(), AllocError>
    requires { (h + 1) * t.now.period ≤ length t.now.path }
    ensures { OnOk result (text.new.items ≡ text.old.items ++ path_line (timetable_of t.now) h) }
{
    text.extend_from_slice(b"path ")?;
    push_number(text, h as u64)?;
    push_positions(text, t, h)?;
    text.push(b'\n')?;
    Ok(())
}

#[tactic(auto, using(crate::proofs::RowLemmas::one_more))]
fn push_paths(text: &mut Vec<u8>, t: &Timetable, hoists: u32) -> Result<(), AllocError>
    requires { hoists * t.now.period ≤ length t.now.path }
    ensures { OnOk result (text.new.items ≡ text.old.items ++ each_below hoists (path_line (timetable_of t.now))) }
{
    for h in 0..hoists {
        push_path(text, t, h)?;
    }
    Ok(())
}

pub(crate) fn push_table(text: &mut Vec<u8>, line: &Line, t: &Timetable) -> Result<(), AllocError>
    requires { IsTimetableOf line.now t.now }
    ensures { OnOk result (text.new.items ≡ text.old.items ++ table_text line.now (timetable_of t.now)) }
{
    push_number_line(text, t.period() as u64)?;
    push_carriers(text, t, line.degree())?;
    push_choices(text, line, t, line.degree())?;
    push_moves(text, t, line.degree(), line.inner() + 1)?;
    push_paths(text, t, line.hoists())?;
    Ok(())
}

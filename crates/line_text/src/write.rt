// Writing a line file.
ghost use Rattle.std.specs.Prelude.{◌≡◌, ◌<◌, ◌++◌, ◌∷◌, All, IfOk, OnOk, codes, flat_map, map, length, if◌then◌else◌};
ghost use Rattle.std.specs.List.{range_with_len};
ghost use Rattle.hoist_base.specs.LineData.{is_single, IsStageOf};
ghost use Rattle.line_text.specs.Fields.{name_of};
ghost use Rattle.line_text.specs.File.{bytes_read};
ghost use Rattle.line_text.specs.declared.why.LineRead.TheVariants.{Ready};
ghost use Rattle.line_text.specs.Written.{
  one_number,
  one_name,
  root_pairs,
  tank_name,
  only_tank,
  all_tanks,
  greatest_pairs,
  window_pairs,
  quoted,
  names_text,
  pair_text,
  header_text,
  tank_text,
  stage_text,
  line_file_text,
};

use crate::fields::Field;
use crate::texts::push_decimal;
use hoist_base::{Line, Stage, Tank};
use std::alloc::{AllocError, Global};

fn push_key(text: &mut Vec<u8>, field: Field) -> Result<(), AllocError>
    ensures { OnOk result (text.new.items ≡ text.old.items ++ (name_of field ++ codes " = ")) }
{
    text.extend_from_slice(field.name().as_bytes())?;
    text.extend_from_slice(b" = ")
}

fn push_number(text: &mut Vec<u8>, field: Field, number: u32) -> Result<(), AllocError>
    ensures { OnOk result (text.new.items ≡ text.old.items ++ pair_text (field, one_number number)) }
{
    push_key(text, field)?;
    push_decimal(text, number)?;
    text.extend_from_slice(b"\n")
}

fn push_quoted(text: &mut Vec<u8>, name: &[u8]) -> Result<(), AllocError>
    ensures { OnOk result (text.new.items ≡ text.old.items ++ quoted name.now) }
{
    text.extend_from_slice(b"\"")?;
    text.extend_from_slice(name)?;
    text.extend_from_slice(b"\"")
}

fn push_name(text: &mut Vec<u8>, field: Field, name: &[u8]) -> Result<(), AllocError>
    ensures { OnOk result (text.new.items ≡ text.old.items ++ pair_text (field, one_name name.now)) }
{
    push_key(text, field)?;
    push_quoted(text, name)?;
    text.extend_from_slice(b"\n")
}

fn tank_name(line: &Line, tank: u32) -> &[u8]
    requires { tank < length line.now.tanks }
    ensures { result.now ≡ tank_name line.now tank }
{
    line.tanks()[tank as usize].name.as_slice()
}

fn push_one_more(text: &mut Vec<u8>, name: &[u8]) -> Result<(), AllocError>
    ensures { OnOk result (text.new.items ≡ text.old.items ++ (codes ", " ++ quoted name.now)) }
{
    text.extend_from_slice(b", ")?;
    push_quoted(text, name)
}

/// The names of these tanks, with a comma and a space before each.
fn push_more_names(text: &mut Vec<u8>, line: &Line, tanks: &[u32]) -> Result<(), AllocError>
    requires { All (λ i. i < length line.now.tanks) tanks.now }
    ensures { OnOk result (text.new.items
        ≡ text.old.items ++ flat_map (λ i. codes ", " ++ quoted (tank_name line.now i)) tanks.now) }
{
    for tank in tanks {
        push_one_more(text, tank_name(line, *tank))?;
    }
    Ok(())
}

/// The names of these tanks, with a comma and a space between them.
fn push_names(text: &mut Vec<u8>, line: &Line, tanks: &[u32]) -> Result<(), AllocError>
    requires { All (λ i. i < length line.now.tanks) tanks.now }
    ensures { OnOk result (text.new.items ≡ text.old.items ++ names_text (map (tank_name line.now) tanks.now)) }
{
    if let Some((first, rest)) = tanks.split_first() {
        push_quoted(text, tank_name(line, *first))?;
        push_more_names(text, line, rest)?;
    }
    Ok(())
}

/// The key of a stage's only tank.
fn push_only_tank(text: &mut Vec<u8>, line: &Line, stage: &Stage) -> Result<(), AllocError>
    requires some { 0 < length stage.now.tanks }
    requires there { All (λ i. i < length line.now.tanks) stage.now.tanks }
    ensures { OnOk result (text.new.items ≡ text.old.items ++ pair_text (only_tank line.now stage.now)) }
{
    push_name(
        text,
        Field::Tank,
        tank_name(line, stage.tanks.as_slice()[0]),
    )
}

/// The key of a stage's tanks.
fn push_all_tanks(text: &mut Vec<u8>, line: &Line, stage: &Stage) -> Result<(), AllocError>
    requires { All (λ i. i < length line.now.tanks) stage.now.tanks }
    ensures { OnOk result (text.new.items ≡ text.old.items ++ pair_text (all_tanks line.now stage.now)) }
{
    push_key(text, Field::Tanks)?;
    text.extend_from_slice(b"[")?;
    push_names(text, line, stage.tanks.as_slice())?;
    text.extend_from_slice(b"]\n")
}

fn push_greatest(text: &mut Vec<u8>, greatest: Option<u32>) -> Result<(), AllocError>
    ensures { OnOk result (text.new.items ≡ text.old.items ++ flat_map pair_text (greatest_pairs greatest)) }
{
    match greatest {
        None => Ok(()),
        Some(greatest) => push_number(text, Field::Max, greatest),
    }
}

/// The keys of an inner stage behind that of its tanks.
fn push_window(text: &mut Vec<u8>, stage: &Stage) -> Result<(), AllocError>
    ensures { OnOk result (text.new.items ≡ text.old.items ++ flat_map pair_text (window_pairs stage.now)) }
{
    push_number(text, Field::Min, stage.min)?;
    push_greatest(text, stage.max)?;
    push_number(text, Field::Lift, stage.lift)?;
    push_number(text, Field::Lower, stage.lower)
}

fn push_header(text: &mut Vec<u8>, field: Field) -> Result<(), AllocError>
    ensures { OnOk result (text.new.items ≡ text.old.items ++ header_text field) }
{
    text.extend_from_slice(b"\n[[")?;
    text.extend_from_slice(field.name().as_bytes())?;
    text.extend_from_slice(b"]]\n")
}

fn push_tank(text: &mut Vec<u8>, tank: &Tank) -> Result<(), AllocError>
    ensures { OnOk result (text.new.items ≡ text.old.items ++ tank_text tank.now) }
{
    push_header(text, Field::Tank)?;
    push_name(text, Field::Name, tank.name.as_slice())?;
    push_number(text, Field::At, tank.at)
}

fn push_tanks(text: &mut Vec<u8>, tanks: &[Tank]) -> Result<(), AllocError>
    ensures { OnOk result (text.new.items ≡ text.old.items ++ flat_map tank_text tanks.now) }
{
    for tank in tanks {
        push_tank(text, tank)?;
    }
    Ok(())
}

fn push_inner(
    text: &mut Vec<u8>,
    line: &Line,
    single: bool,
    stage: &Stage,
) -> Result<(), AllocError>
    requires some { 0 < length stage.now.tanks }
    requires there { All (λ i. i < length line.now.tanks) stage.now.tanks }
    ensures { OnOk result (text.new.items ≡ text.old.items ++ flat_map pair_text
        ((if single then only_tank line.now stage.now else all_tanks line.now stage.now) ∷ window_pairs stage.now)) }
{
    if single {
        push_only_tank(text, line, stage)?;
    } else {
        push_all_tanks(text, line, stage)?;
    }
    push_window(text, stage)
}

/// A stage of a line, which is `single` where every stage has one tank.
#[tactic(auto, using(crate::proofs::WrittenLemmas::tanks_there))]
fn push_stage(text: &mut Vec<u8>, line: &Line, single: bool, k: u32) -> Result<(), AllocError>
    requires stage { IsStageOf line.now k }
    requires version { single ≡ is_single line.now }
    ensures { OnOk result (text.new.items ≡ text.old.items ++ stage_text line.now k) }
{
    let stages = line.stages();
    let stage = &stages[k as usize];
    push_header(text, Field::Stage)?;
    if k == 0 {
        push_only_tank(text, line, stage)?;
        push_number(text, Field::Lift, stage.lift)?;
    } else if k as usize + 1 == stages.len() {
        push_only_tank(text, line, stage)?;
        push_number(text, Field::Lower, stage.lower)?;
    } else {
        push_inner(text, line, single, stage)?;
    }
    Ok(())
}

#[tactic(auto, using(crate::proofs::WrittenLemmas::one_more))]
fn push_stages(text: &mut Vec<u8>, line: &Line, single: bool) -> Result<(), AllocError>
    requires { single ≡ is_single line.now }
    ensures { OnOk result (text.new.items
        ≡ text.old.items ++ flat_map (stage_text line.now) (range_with_len 0 (length line.now.stages))) }
{
    for k in 0..line.stages().len() as u32 {
        push_stage(text, line, single, k)?;
    }
    Ok(())
}

/// The version of a line, which is `single` where every stage has one tank.
fn version(single: bool) -> u32
    ensures { result ≡ (if single then 1 else 2) }
{
    if single { 1 } else { 2 }
}

/// The keys of the root but the tables.
fn push_root(text: &mut Vec<u8>, line: &Line, single: bool) -> Result<(), AllocError>
    requires { single ≡ is_single line.now }
    ensures { OnOk result (text.new.items ≡ text.old.items ++ flat_map pair_text (root_pairs line.now)) }
{
    push_number(text, Field::Version, version(single))?;
    push_number(text, Field::Track, line.track())?;
    push_number(text, Field::Gap, line.gap())?;
    push_number(text, Field::Hoists, line.hoists())?;
    push_number(text, Field::Degree, line.degree())?;
    push_number(text, Field::MaxPeriod, line.max_period())?;
    push_number(text, Field::Load, line.load())?;
    push_number(text, Field::Unload, line.unload())?;
    Ok(())
}

/// The text of a line file that describes the line: in version 1 where every stage has one tank, else in version 2.
/// It is read as the same line.
///
/// # Errors
///
/// Only for want of memory.
pub fn write_line(alloc: Global, line: &Line) -> Result<Vec<u8>, AllocError>
    ensures text { IfOk result (λ text. text.items ≡ line_file_text line.now) }
    ensures reads { IfOk result (λ text. bytes_read text.items ≡ Ready line.now) }
{
    let single = line.single();
    let mut text = Vec::new(alloc);
    push_root(&mut text, line, single)?;
    push_tanks(&mut text, line.tanks())?;
    push_stages(&mut text, line, single)?;
    Ok(text)
}

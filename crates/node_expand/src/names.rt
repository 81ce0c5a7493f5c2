// The names of the constraints that stand on every path, in their order.
ghost use Rattle.std.specs.Prelude.{
  ◌≡◌,
  ◌+◌,
  ◌<◌,
  ◌≤◌,
  [],
  ◌∷◌,
  ◌++◌,
  map,
  flat_map,
  is_some,
  if◌then◌else◌,
  IfOk,
  OnOk,
};
ghost use Rattle.hoist_base.specs.LineData.{stage};
ghost use Rattle.hoist_base.specs.Valid.{IsLine};
ghost use Rattle.choice_tree.specs.declared.constraint.Constraint.{Constraint};
ghost use Rattle.choice_tree.specs.Nodes.{numbers_from};
ghost use Rattle.path_constraints.specs.Constraints.{inner_stages, undecided_list};

use choice_tree::Constraint;
use hoist_base::Line;
use std::alloc::{AllocError, Global};

fn push_mins(names: &mut Vec<Constraint>, c: u32, count: u32) -> Result<(), AllocError>
    requires { count ≤ 30 }
    ensures { OnOk result (names.new.items ≡ names.old.items ++ map (λ k. Constraint.Min c k) (numbers_from 1 count)) }
{
    for k in 1..count + 1 {
        names.push(Constraint::Min { c, k })?;
    }
    Ok(())
}

fn push_maxes(names: &mut Vec<Constraint>, line: &Line, c: u32) -> Result<(), AllocError>
    ensures { OnOk result (names.new.items ≡ names.old.items
        ++ flat_map (λ k. if is_some (stage line.now k).max then Constraint.Max c k ∷ [] else [])
        (inner_stages line.now)) }
{
    let count = line.inner();
    for k in 1..count + 1 {
        if line.stages()[k as usize].max.is_some() {
            names.push(Constraint::Max { c, k })?;
        }
    }
    Ok(())
}

fn push_visits(names: &mut Vec<Constraint>, c: u32, count: u32) -> Result<(), AllocError>
    requires { count ≤ 31 }
    ensures { OnOk result (names.new.items ≡ names.old.items
        ++ map (λ k. Constraint.Visit c k) (numbers_from 1 count)) }
{
    for k in 1..count + 1 {
        names.push(Constraint::Visit { c, k })?;
    }
    Ok(())
}

fn push_repeats(names: &mut Vec<Constraint>, c: u32, count: u32) -> Result<(), AllocError>
    requires { count ≤ 31 }
    ensures { OnOk result (names.new.items ≡ names.old.items
        ++ map (λ k. Constraint.Repeat c k) (numbers_from 0 count)) }
{
    for k in 0..count {
        names.push(Constraint::Repeat { c, k })?;
    }
    Ok(())
}

/// The names of the constraints of a line before any decision, in their order.
pub(crate) fn undecided_names(alloc: Global, line: &Line) -> Result<Vec<Constraint>, AllocError>
    ensures names { IfOk result (λ names. names.items ≡ undecided_list line.now) }
    ensures valid { IsLine line.now }
{
    let inner = line.inner();
    let mut names = Vec::new(alloc);
    for c in 0..line.degree() {
        push_mins(&mut names, c, inner)?;
    }
    for c in 0..line.degree() {
        push_maxes(&mut names, line, c)?;
    }
    for c in 0..line.degree() {
        names.push(Constraint::Entry { c })?;
    }
    for c in 0..line.degree() {
        push_visits(&mut names, c, inner + 1)?;
    }
    for c in 0..line.degree() {
        push_repeats(&mut names, c, inner + 1)?;
    }
    Ok(names)
}

// The text of an answer.
ghost use Rattle.std.specs.Prelude.{◌≡◌, ◌++◌, codes, decimal, OnOk, IfOk, MatchOption, ⊤};
ghost use Rattle.timetable.specs.TimetableData.{IsTimetableOf};
ghost use Rattle.answer_text.specs.Nodes.{tree_text};
ghost use Rattle.answer_text.specs.Tables.{timetable_text};
ghost use Rattle.answer_text.specs.Words.{version_text, verdict_text};
ghost use Rattle.answer_text.specs.Answers.{answer_text, IsWritable};

use crate::answer::{Answer, Verdict};
use crate::nodes::push_nodes;
use crate::tables::push_table;
use crate::words::version;
use choice_tree::Tree;
use hoist_base::Line;
use std::alloc::{AllocError, Global};
use text_writing::{Worded, push_number};
use timetable::Timetable;

/// The text of an answer to a line.
///
/// The answer is one that has a text for this line: its lengths fit the line, its numbers are in the ranges of the
/// text, a closed leaf has a walk, and where every stage of the line has one tank no tank is chosen and stuck moves are
/// of carrier 0.
pub fn write_answer(alloc: Global, line: &Line, a: &Answer) -> Result<Vec<u8>, AllocError>
    requires { IsWritable line.now a.now }
    ensures { IfOk result (λ text. text.items ≡ answer_text line.now a.now) }
{
    let single = line.single();
    let mut text = Vec::new(alloc);
    push_head(&mut text, single, a.verdict)?;
    push_numbers(&mut text, a.bound, a.splits)?;
    push_timetable(&mut text, line, &a.timetable)?;
    push_tree(&mut text, alloc, single, &a.tree)?;
    Ok(text)
}

fn push_head(text: &mut Vec<u8>, single: bool, verdict: Verdict) -> Result<(), AllocError>
    ensures { OnOk result (text.new.items ≡ text.old.items
        ++ (version_text single ++ (codes "verdict " ++ (verdict_text verdict ++ codes "\nbound ")))) }
{
    text.extend_from_slice(version(single))?;
    text.extend_from_slice(b"verdict ")?;
    text.extend_from_slice(verdict.word())?;
    text.extend_from_slice(b"\nbound ")?;
    Ok(())
}

fn push_numbers(text: &mut Vec<u8>, bound: u32, splits: u32) -> Result<(), AllocError>
    ensures { OnOk result (text.new.items ≡ text.old.items
        ++ (decimal bound ++ (codes "\nsplits " ++ (decimal splits ++ codes "\ntimetable ")))) }
{
    push_number(text, bound as u64)?;
    text.extend_from_slice(b"\nsplits ")?;
    push_number(text, splits as u64)?;
    text.extend_from_slice(b"\ntimetable ")?;
    Ok(())
}

fn push_timetable(text: &mut Vec<u8>, line: &Line, t: &Option<Timetable>) -> Result<(), AllocError>
    requires { MatchOption t.now ⊤ (λ d. IsTimetableOf line.now d) }
    ensures { OnOk result (text.new.items ≡ text.old.items ++ timetable_text line.now t.now) }
{
    match t {
        None => text.extend_from_slice(b"none\n")?,
        Some(t) => push_table(text, line, t)?,
    }
    Ok(())
}

#[tactic(auto, using(crate::proofs::OrderLemmas::preorder_there))]
fn push_tree(text: &mut Vec<u8>, alloc: Global, single: bool, tree: &Tree) -> Result<(), AllocError>
    ensures { OnOk result (text.new.items ≡ text.old.items
        ++ (codes "tree\n" ++ (tree_text single tree.now ++ codes "end\n"))) }
{
    let order = tree.order(alloc)?;
    text.extend_from_slice(b"tree\n")?;
    push_nodes(text, single, tree, order.as_slice())?;
    text.extend_from_slice(b"end\n")?;
    Ok(())
}

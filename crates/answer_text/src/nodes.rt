// The lines of the tree, written at the end of a text.
ghost use Rattle.std.specs.Prelude.{◌≡◌, ◌<◌, ◌++◌, length, codes, decimal, OnOk, All, flat_map};
ghost use Rattle.std.specs.Fmt.{signed_decimal};
ghost use Rattle.choice_tree.specs.Nodes.{node_at};
ghost use Rattle.text_writing.specs.Texts.{end, pair_text};
ghost use Rattle.answer_text.specs.Fields.{walk_text};
ghost use Rattle.answer_text.specs.Nodes.{question_text, high_text, closed_text, stuck_text, left_text, node_text};

use crate::fields::{push_number_line, push_signed_line, push_walk, push_walk_line};
use choice_tree::{Node, Proof, Question, Tree};
use hoist_base::MoveId;
use std::alloc::AllocError;
use text_writing::push_pair;

fn push_count(
    text: &mut Vec<u8>,
    word: &[u8],
    c: u32,
    k: u32,
    children: usize,
) -> Result<(), AllocError>
    ensures { OnOk result (text.new.items ≡ text.old.items
        ++ (word.now ++ (pair_text c k ++ (codes " " ++ (decimal children ++ end))))) }
{
    text.extend_from_slice(word)?;
    push_pair(text, c, k)?;
    text.push(b' ')?;
    push_number_line(text, children as u64)?;
    Ok(())
}

/// The names of an order, (c, k) before (d, j) by q periods.
fn push_order(
    text: &mut Vec<u8>,
    word: &[u8],
    first: (u32, u32),
    second: (u32, u32),
    q: i64,
) -> Result<(), AllocError>
    ensures { OnOk result (text.new.items ≡ text.old.items
        ++ (word.now ++ (pair_text first.0 first.1 ++ (codes " "
        ++ (pair_text second.0 second.1 ++ (codes " " ++ (signed_decimal q ++ end))))))) }
{
    text.extend_from_slice(word)?;
    push_pair(text, first.0, first.1)?;
    text.push(b' ')?;
    push_pair(text, second.0, second.1)?;
    text.push(b' ')?;
    push_signed_line(text, q)?;
    Ok(())
}

fn push_question(text: &mut Vec<u8>, question: Question, children: usize) -> Result<(), AllocError>
    ensures { OnOk result (text.new.items ≡ text.old.items ++ question_text question children) }
{
    match question {
        Question::Choose { v } => push_count(text, b"choose ", v.carrier, v.stage, children)?,
        Question::Assign { m } => push_count(text, b"assign ", m.carrier, m.step, children)?,
        Question::TankOrder { a, b, q } => push_order(
            text,
            b"tank ",
            (a.carrier, a.stage),
            (b.carrier, b.stage),
            q,
        )?,
        Question::HoistOrder { a, b, q } => push_order(
            text,
            b"hoist ",
            (a.carrier, a.step),
            (b.carrier, b.step),
            q,
        )?,
    }
    Ok(())
}

fn push_high(text: &mut Vec<u8>, high: &Option<Proof>) -> Result<(), AllocError>
    ensures { OnOk result (text.new.items ≡ text.old.items ++ high_text high.now) }
{
    match high {
        None => text.push(b'\n')?,
        Some(high) => {
            text.extend_from_slice(b" high ")?;
            push_walk_line(text, high)?;
        }
    }
    Ok(())
}

fn push_closed(
    text: &mut Vec<u8>,
    low: &Option<Proof>,
    high: &Option<Proof>,
) -> Result<(), AllocError>
    ensures { OnOk result (text.new.items ≡ text.old.items ++ closed_text low.now high.now) }
{
    match low {
        None => push_high(text, high)?,
        Some(low) => {
            text.extend_from_slice(b" low ")?;
            push_walk(text, low)?;
            push_high(text, high)?;
        }
    }
    Ok(())
}

fn push_stuck(text: &mut Vec<u8>, single: bool, m: MoveId) -> Result<(), AllocError>
    ensures { OnOk result (text.new.items ≡ text.old.items ++ stuck_text single m.carrier m.step) }
{
    if single {
        push_number_line(text, m.step as u64)?;
    } else {
        push_pair(text, m.carrier, m.step)?;
        text.push(b'\n')?;
    }
    Ok(())
}

fn push_left(text: &mut Vec<u8>, low: &Option<Proof>) -> Result<(), AllocError>
    ensures { OnOk result (text.new.items ≡ text.old.items ++ left_text low.now) }
{
    match low {
        None => text.extend_from_slice(b"none\n")?,
        Some(low) => push_walk_line(text, low)?,
    }
    Ok(())
}

fn push_node(text: &mut Vec<u8>, single: bool, node: &Node) -> Result<(), AllocError>
    ensures { OnOk result (text.new.items ≡ text.old.items ++ node_text single node.now) }
{
    match node {
        Node::Split { question, children } => {
            text.extend_from_slice(b"split ")?;
            push_question(text, *question, children.as_slice().len())?;
        }
        Node::Closed { low, high } => {
            text.extend_from_slice(b"closed")?;
            push_closed(text, low, high)?;
        }
        Node::Stuck { m } => {
            text.extend_from_slice(b"closed stuck ")?;
            push_stuck(text, single, *m)?;
        }
        Node::Solved { low } => {
            text.extend_from_slice(b"solved ")?;
            push_walk_line(text, low)?;
        }
        Node::Left { low } => {
            text.extend_from_slice(b"left ")?;
            push_left(text, low)?;
        }
    }
    Ok(())
}

/// The lines of these nodes, in this order.
pub(crate) fn push_nodes(
    text: &mut Vec<u8>,
    single: bool,
    tree: &Tree,
    order: &[u32],
) -> Result<(), AllocError>
    requires { All (λ i. i < length tree.now) order.now }
    ensures { OnOk result (text.new.items ≡ text.old.items
        ++ flat_map (λ i. node_text single (node_at tree.now i)) order.now) }
{
    for i in order {
        push_node(text, single, tree.node(*i))?;
    }
    Ok(())
}

// A whole answer, read from its text.
ghost use Rattle.std.specs.Prelude.{◌≡◌, ◌≤◌, ◌^◌, length, codes, IfOk};
ghost use Rattle.hoist_base.specs.LineData.{is_single};
ghost use Rattle.hoist_base.specs.Valid.{IsLine};
ghost use Rattle.answer_text.specs.declared.answer.Answer.{Answer};
ghost use Rattle.answer_read.specs.declared.answer.AnswerRead.TheVariants.{Ready};
ghost use Rattle.field_reading.specs.Gives.{Gives};
ghost use Rattle.answer_read.specs.Parts.{verdict_at, numbers_at, table_part_at, tree_part_at, answer_at};
ghost use Rattle.answer_read.specs.Answers.{IsTextOf, IsRead};

use crate::table::timetable;
use crate::tree::tree;
use answer_text::{Answer, MOST_BOUND, MOST_SPLITS, Verdict, version};
use choice_tree::Tree;
use field_reading::{Stop, kind, number, word};
use hoist_base::Line;
use std::alloc::{AllocError, Global};
use timetable::Timetable;

/// What the bytes are: the text of an answer, or no answer's text.
///
/// `offset` is the length of the longest front of the bytes with which the text of some answer to the line begins.
#[derive(Debug, Drop)]
pub enum AnswerRead {
    Ready(Answer),
    Broken { offset: u64 },
}

/// The first line, and the verdict.
#[tactic(auto, unfolding(crate::specs::Parts::verdict_at))]
fn verdict(single: bool, bytes: &[u8]) -> Result<(Verdict, &[u8]), Stop>
    ensures { Gives (λ x. (x.0, x.1.now)) result (verdict_at single bytes.now) }
{
    let rest = word(version(single), bytes)?;
    let rest = word(b"verdict ", rest)?;
    let kinds = [Verdict::Optimal, Verdict::Nothing, Verdict::Unfinished];
    kind(&kinds, rest)
}

/// The bound, and the number of splits.
#[tactic(auto, unfolding(crate::specs::Parts::numbers_at))]
fn numbers(bytes: &[u8]) -> Result<((u32, u32), &[u8]), Stop>
    ensures { Gives (λ x. (x.0, x.1.now)) result (numbers_at bytes.now) }
{
    let rest = word(b"\nbound ", bytes)?;
    let (bound, rest) = number(1, MOST_BOUND, rest)?;
    let rest = word(b"\nsplits ", rest)?;
    let (splits, rest) = number(0, MOST_SPLITS, rest)?;
    Ok(((bound, splits), rest))
}

#[tactic(auto, unfolding(crate::specs::Parts::table_part_at))]
fn table_part<'a>(
    alloc: Global,
    line: &Line,
    bytes: &'a [u8],
) -> Result<(Option<Timetable>, &'a [u8]), Stop>
    ensures { Gives (λ x. (x.0, x.1.now)) result (table_part_at line.now bytes.now) }
{
    let rest = word(b"\ntimetable ", bytes)?;
    timetable(alloc, line, rest)
}

#[tactic(auto, unfolding(crate::specs::Parts::tree_part_at))]
fn tree_part(alloc: Global, single: bool, bytes: &[u8]) -> Result<(Tree, &[u8]), Stop>
    requires { length bytes.now ≤ 2 ^ 30 }
    ensures { Gives (λ x. (x.0, x.1.now)) result (tree_part_at single bytes.now) }
{
    let rest = word(b"tree\n", bytes)?;
    let (tree, rest) = tree(alloc, single, rest)?;
    let rest = word(b"end\n", rest)?;
    Ok((tree, rest))
}

#[tactic(auto, unfolding(crate::specs::Parts::answer_at))]
fn answer<'a>(
    alloc: Global,
    line: &Line,
    single: bool,
    bytes: &'a [u8],
) -> Result<(Answer, &'a [u8]), Stop>
    requires line { IsLine line.now }
    requires single { single ≡ is_single line.now }
    requires few { length bytes.now ≤ 2 ^ 30 }
    ensures { Gives (λ x. (x.0, x.1.now)) result (answer_at line.now bytes.now) }
{
    let (verdict, rest) = verdict(single, bytes)?;
    let ((bound, splits), rest) = numbers(rest)?;
    let (timetable, rest) = table_part(alloc, line, rest)?;
    let (tree, rest) = tree_part(alloc, single, rest)?;
    let answer = Answer {
        verdict,
        bound,
        splits,
        timetable,
        tree,
    };
    Ok((answer, rest))
}

/// The answer whose text the bytes are, or where they stop being one.
///
/// The nodes of the answer's tree are numbered as they are when they are split in preorder.
pub fn read_answer(alloc: Global, line: &Line, bytes: &[u8]) -> Result<AnswerRead, AllocError>
    requires { length bytes.now ≤ 2 ^ 30 }
    ensures found { IfOk result (λ r. IsRead line.now bytes.now r) }
    ensures only { (a : Answer) → IsTextOf line.now bytes.now a → IfOk result (λ r. r ≡ Ready a) }
{
    let single = line.single();
    match answer(alloc, line, single, bytes) {
        Ok((answer, rest)) => {
            if rest.is_empty() {
                Ok(AnswerRead::Ready(answer))
            } else {
                Ok(AnswerRead::Broken {
                    offset: bytes.len().saturating_sub(rest.len()) as u64,
                })
            }
        }
        Err(Stop::Broken(left)) => Ok(AnswerRead::Broken {
            offset: bytes.len().saturating_sub(left) as u64,
        }),
        Err(Stop::Memory) => Err(AllocError),
    }
}

// The section of the reason.
ghost use Rattle.std.specs.Prelude.{◌≡◌, ◌<◌, ◌++◌, length, IfOk, IfSome, MatchOption, OnOk, codes, decimal};
ghost use Rattle.path_constraints.specs.Questions.{FitsPath};
ghost use Rattle.path_constraints.specs.Proves.{IsClosedWalk};
ghost use Rattle.answer_text.specs.Answers.{IsWritable};
ghost use Rattle.answer_text.specs.Fields.{IsWalk};
ghost use Rattle.cert_checker.specs.Rules.{KeepsRules};
ghost use Rattle.report_reason.specs.Reason as reasons;

use crate::decisions::decision_list;
use crate::nearest::setting_walk;
use answer_text::Answer;
use choice_tree::{Decision, Proof};
use hoist_base::Line;
use markup::{Element, Key, Tag};
use std::alloc::{AllocError, Global};
use text_writing::push_word_number;
use walk_words::walk_table;

/// Words as a paragraph.
fn paragraph(alloc: Global, words: &[u8]) -> Result<Element, AllocError>
    ensures { IfOk result (λ e. e ≡ reasons.paragraph words.now) }
{
    Element::new(alloc, Tag::Paragraph).saying(words)
}

/// A paragraph of words with a number of ticks between them.
fn ticks_between(
    alloc: Global,
    before: &[u8],
    ticks: u32,
    behind: &[u8],
) -> Result<Element, AllocError>
    ensures { IfOk result (λ e. e ≡ reasons.paragraph (before.now ++ (decimal ticks ++ behind.now))) }
{
    let mut text = Vec::new(alloc);
    push_word_number(&mut text, before, ticks as u64)?;
    text.extend_from_slice(behind)?;
    paragraph(alloc, text.as_slice())
}

#[tactic(auto, unfolding(crate::specs::Reason::heading))]
/// The heading of the section.
fn heading(alloc: Global) -> Result<Element, AllocError>
    ensures { IfOk result (λ e. e ≡ reasons.heading) }
{
    Element::new(alloc, Tag::Subheading).saying(b"Why not faster")
}

#[tactic(auto, unfolding(crate::specs::Reason::proved))]
/// What the whole tree proves.
fn proved(alloc: Global, bound: u32) -> Result<Element, AllocError>
    ensures { IfOk result (λ e. e ≡ reasons.proved bound) }
{
    ticks_between(
        alloc,
        b"No timetable of this line has a period below ",
        bound,
        b" ticks.",
    )
}

/// The heading of the section and what the tree proves.
fn opening(alloc: Global, bound: u32) -> Result<Element, AllocError>
    ensures { IfOk result (λ e. e ≡ reasons.opening bound) }
{
    let heading = heading(alloc)?;
    let proved = proved(alloc, bound)?;
    Element::new(alloc, Tag::Division)
        .having(Key::Class, b"reason")?
        .holding(&heading)?
        .holding(&proved)
}

#[tactic(auto, unfolding(crate::specs::Reason::branch_words))]
/// That a branch sets the bound.
fn branch_words(alloc: Global, bound: u32) -> Result<Element, AllocError>
    ensures { IfOk result (λ e. e ≡ reasons.branch_words bound) }
{
    ticks_between(
        alloc,
        b"Every branch of the tree of choices refutes all shorter periods, and this is the first one that leaves ",
        bound,
        b" ticks open:",
    )
}

/// The heading, and that a branch sets the bound.
fn branch_opening(alloc: Global, bound: u32) -> Result<Element, AllocError>
    ensures { IfOk result (λ e. e ≡ reasons.branch_opening bound) }
{
    let branch = branch_words(alloc, bound)?;
    opening(alloc, bound)?.holding(&branch)
}

#[tactic(auto, unfolding(crate::specs::Reason::no_choice))]
/// That no decision leads to the branch.
fn no_choice(alloc: Global) -> Result<Element, AllocError>
    ensures { IfOk result (λ e. e ≡ reasons.no_choice) }
{
    paragraph(alloc, b"No choice has to be made for that.")
}

/// The decisions that lead to the branch, or that there is none.
fn choices(alloc: Global, line: &Line, path: &[Decision]) -> Result<Element, AllocError>
    requires { FitsPath line.now path.now }
    ensures { IfOk result (λ e. e ≡ reasons.choices line.now path.now) }
{
    if path.is_empty() {
        return no_choice(alloc);
    }
    decision_list(alloc, line, path)
}

#[tactic(auto, unfolding(crate::specs::Reason::walk_intro))]
/// That the branch's walk follows.
fn walk_intro(alloc: Global) -> Result<Element, AllocError>
    ensures { IfOk result (λ e. e ≡ reasons.walk_intro) }
{
    paragraph(
        alloc,
        b"There these constraints lead from the start of a move back to it:",
    )
}

/// The section of an answer with a branch that sets the bound.
fn branch_section(
    alloc: Global,
    line: &Line,
    bound: u32,
    path: &[Decision],
    proof: &Proof,
) -> Result<Element, AllocError>
    requires fits { FitsPath line.now path.now }
    requires closed { IsClosedWalk line.now path.now proof.now }
    requires walk { IsWalk proof.now }
    ensures { IfOk result (λ e. e ≡ reasons.branch_section line.now bound path.now proof.now) }
{
    let choices = choices(alloc, line, path)?;
    let intro = walk_intro(alloc)?;
    let steps = walk_table(alloc, line, path, proof.as_slice())?;
    branch_opening(alloc, bound)?
        .holding(&choices)?
        .holding(&intro)?
        .holding(&steps)
}

#[tactic(auto, unfolding(crate::specs::Reason::none_words))]
/// Why no branch is shown.
fn none_words(alloc: Global, bound: u32) -> Result<Element, AllocError>
    ensures { IfOk result (λ e. e ≡ reasons.none_words bound) }
{
    if bound <= 1 {
        return paragraph(
            alloc,
            b"No period is below one tick, so there is no more to show.",
        );
    }
    ticks_between(
        alloc,
        b"Every branch of the tree of choices refutes ",
        bound,
        b" ticks too, or has a move that no hoist can make; so none of them sets the bound.",
    )
}

/// The section of an answer without such a branch.
fn none_section(alloc: Global, bound: u32) -> Result<Element, AllocError>
    ensures { IfOk result (λ e. e ≡ reasons.none_section bound) }
{
    let why = none_words(alloc, bound)?;
    opening(alloc, bound)?.holding(&why)
}

/// The section of a node, where it has a walk that sets the bound.
fn section_at(
    alloc: Global,
    line: &Line,
    answer: &Answer,
    node: u32,
) -> Result<Option<Element>, AllocError>
    requires text { IsWritable line.now answer.now }
    requires kept { KeepsRules line.now answer.now }
    requires there { node < length answer.now.tree }
    ensures { IfOk result (λ section. reasons.IsSectionAt line.now answer.now node section) }
{
    let path = answer.tree.path(alloc, node)?;
    match setting_walk(line, path.as_slice(), answer.tree.node(node), answer.bound) {
        None => Ok(None),
        Some(proof) => {
            let section = branch_section(alloc, line, answer.bound, path.as_slice(), proof)?;
            Ok(Some(section))
        }
    }
}

/// The section that says why the period of an answer can't be shorter.
///
/// The answer is one that has a text for this line and keeps the rules of the checker. The section shows the first
/// branch of its tree, in preorder, that refutes all periods below the bound and leaves the bound open: the decisions
/// that lead to it and the closed walk that refutes these periods; or it says why there is none.
pub fn reason(alloc: Global, line: &Line, answer: &Answer) -> Result<Element, AllocError>
    requires text { IsWritable line.now answer.now }
    requires kept { KeepsRules line.now answer.now }
    ensures { IfOk result (λ e. reasons.IsReason line.now answer.now e) }
{
    let order = answer.tree.order(alloc)?;
    for number in 0..order.len() {
        if let Some(section) = section_at(alloc, line, answer, order[number])? {
            return Ok(section);
        }
    }
    none_section(alloc, answer.bound)
}

// The rules of a node.
ghost use Rattle.std.specs.Prelude.{
  ◌≡◌,
  ℕ,
  ◌+◌,
  ◌≤◌,
  ◌<◌,
  List,
  MatchOption,
  option_map,
  Some,
  None,
  Bool,
  IsTrue,
  ◌↔◌,
};
ghost use Rattle.hoist_base.specs.LineData.{IsMove};
ghost use Rattle.hoist_base.specs.Valid.{IsLine};
ghost use Rattle.longest_path.specs.Bounds.{IsPeriod};
ghost use Rattle.choice_tree.specs.declared.node.Node.{Node};
ghost use Rattle.path_constraints.specs.Questions.{FitsPath};
ghost use Rattle.path_constraints.specs.Proves.{IsWholeSplit, Shows};
ghost use Rattle.path_constraints.specs.Tanks.{IsStuck};
ghost use Rattle.answer_text.specs.Nodes.{IsNodeText, IsWalkOr};
ghost use Rattle.cert_checker.specs.Judged.{IsFirstFlaw, IsNodeAnswer, IsJudged, AreUsable, sums_in};
ghost use Rattle.cert_checker.specs.Judged as judged;
ghost use Rattle.cert_checker.specs.Reasons as reasons;

use crate::periods::first_open;
use crate::reason::Reason;
use crate::walks::{Followed, follow, follow_some};
use choice_tree::{Decision, Node, Proof, Question};
use cycle_walk::Sums;
use hoist_base::{Line, MoveId};
use path_constraints::{child_count, fits, is_stuck};

// How many constraints a walk has.
fn count_of(followed: Option<Followed>) -> u32
    ensures { result ≡ judged.count_of followed }
{
    match followed {
        None => 0,
        Some(followed) => followed.count,
    }
}

fn sums_of(followed: Option<Followed>) -> Option<Sums>
    ensures { result ≡ sums_in followed }
{
    match followed {
        None => None,
        Some(followed) => Some(followed.sums),
    }
}

fn own_loose(followed: Option<Followed>) -> Option<u32>
    ensures { result ≡ judged.own_loose followed }
{
    match followed {
        None => None,
        Some(followed) => followed.loose,
    }
}

// The first constraint of both walks that doesn't end where the next one begins.
fn first_loose(low: Option<Followed>, high: Option<Followed>) -> Option<u32>
    requires low { AreUsable low }
    requires high { AreUsable high }
    ensures { result ≡ judged.first_loose low high }
{
    if let Some(place) = own_loose(low) {
        return Some(place);
    }
    match own_loose(high) {
        None => None,
        Some(place) => Some(count_of(low) + place),
    }
}

// What is wrong with a leaf whose walks were followed: its first loose constraint, or the least period that is open.
fn judge(low: Option<Followed>, high: Option<Followed>, bound: u32, node: u32) -> Option<Reason>
    requires low { AreUsable low }
    requires high { AreUsable high }
    requires bound { IsPeriod bound }
    ensures { IsJudged low high bound node result }
{
    if let Some(place) = first_loose(low, high) {
        return Some(Reason::Joint { node, place });
    }
    let low = sums_of(low);
    let high = sums_of(high);
    match first_open(low, high, bound) {
        None => None,
        Some(period) => Some(Reason::Period {
            node,
            period,
            low,
            high,
        }),
    }
}

fn split_reason(
    line: &Line,
    path: &[Decision],
    question: Question,
    children: &[u32],
    node: u32,
) -> Option<Reason>
    requires { FitsPath line.now path.now }
    ensures { MatchOption result (IsWholeSplit line.now path.now question children.now)
        (λ r. (r ≡ Reason.Question node) × (IsWholeSplit line.now path.now question children.now → ⊥)) }
{
    if fits(line, path, question) && children.len() == child_count(line, path, question) as usize {
        return None;
    }
    Some(Reason::Question { node })
}

// Whether this is a move of the line that no hoist may reach below the path.
fn is_stuck_move(line: &Line, path: &[Decision], m: MoveId) -> bool
    requires { FitsPath line.now path.now }
    ensures { IsTrue result ↔ (IsMove line.now m.carrier m.step × IsStuck line.now path.now m.carrier m.step) }
{
    line.has_move(m) && is_stuck(line, path, m)
}

fn stuck_reason(line: &Line, path: &[Decision], m: MoveId, node: u32) -> Option<Reason>
    requires { FitsPath line.now path.now }
    ensures { (bound : ℕ) → IsNodeAnswer line.now path.now (Node.Stuck m) bound node result }
{
    if is_stuck_move(line, path, m) {
        return None;
    }
    Some(Reason::Stuck { node, m })
}

fn closed_reason(
    line: &Line,
    path: &[Decision],
    low: &Option<Proof>,
    high: &Option<Proof>,
    bound: u32,
    node: u32,
) -> Option<Reason>
    requires valid { IsLine line.now }
    requires fits { FitsPath line.now path.now }
    requires low { IsWalkOr low.now }
    requires high { IsWalkOr high.now }
    requires bound { IsPeriod bound }
    ensures { IsNodeAnswer line.now path.now (Node.Closed low.now high.now) bound node result }
{
    match follow_some(line, path, low) {
        Err(place) => Some(Reason::Token { node, place }),
        Ok(low) => match follow_some(line, path, high) {
            Err(place) => Some(Reason::Token {
                node,
                place: count_of(low) + place,
            }),
            Ok(high) => judge(low, high, bound, node),
        },
    }
}

fn solved_reason(
    line: &Line,
    path: &[Decision],
    low: &Proof,
    bound: u32,
    node: u32,
) -> Option<Reason>
    requires valid { IsLine line.now }
    requires fits { FitsPath line.now path.now }
    requires low { IsWalkOr (Some low.now) }
    requires bound { IsPeriod bound }
    ensures { IsNodeAnswer line.now path.now (Node.Solved low.now) bound node result }
{
    match follow(line, path, low) {
        Err(place) => Some(Reason::Token { node, place }),
        Ok(low) => judge(Some(low), None, bound, node),
    }
}

fn left_reason(
    line: &Line,
    path: &[Decision],
    low: &Option<Proof>,
    bound: u32,
    node: u32,
) -> Option<Reason>
    requires valid { IsLine line.now }
    requires fits { FitsPath line.now path.now }
    requires low { IsWalkOr low.now }
    requires bound { IsPeriod bound }
    ensures { IsNodeAnswer line.now path.now (Node.Left low.now) bound node result }
{
    match follow_some(line, path, low) {
        Err(place) => Some(Reason::Token { node, place }),
        Ok(low) => judge(low, None, bound, node),
    }
}

/// What is wrong with a node of the path, which is named by a number, where the tree is to prove the bound: its first
/// flaw, or None where it shows what it is to show.
pub(crate) fn node_reason(
    line: &Line,
    path: &[Decision],
    node: &Node,
    bound: u32,
    number: u32,
) -> Option<Reason>
    ghost single: { Bool }
    requires valid { IsLine line.now }
    requires fits { FitsPath line.now path.now }
    requires text { IsNodeText single node.now }
    requires bound { IsPeriod bound }
    ensures { IsNodeAnswer line.now path.now node.now bound number result }
{
    match node {
        Node::Split { question, children } => {
            split_reason(line, path, *question, children.as_slice(), number)
        }
        Node::Closed { low, high } => closed_reason(line, path, low, high, bound, number),
        Node::Stuck { m } => stuck_reason(line, path, *m, number),
        Node::Solved { low } => solved_reason(line, path, low, bound, number),
        Node::Left { low } => left_reason(line, path, low, bound, number),
    }
}

/// Whether a node is a split.
pub(crate) fn is_split(node: &Node) -> bool
    ensures { result ≡ reasons.is_split node.now }
{
    matches!(node, Node::Split { .. })
}

/// What is wrong with a node of the path where it is a split; a leaf is left for later.
pub(crate) fn split_flaw(
    line: &Line,
    path: &[Decision],
    node: &Node,
    bound: u32,
    number: u32,
) -> Option<Reason>
    ghost single: { Bool }
    requires valid { IsLine line.now }
    requires fits { FitsPath line.now path.now }
    requires text { IsNodeText single node.now }
    requires bound { IsPeriod bound }
    ensures { MatchOption result (IsTrue (reasons.is_split node.now) → Shows line.now path.now node.now bound)
        (λ r. IsFirstFlaw line.now path.now node.now bound number r) }
{
    if !is_split(node) {
        return None;
    }
    node_reason(line, path, node, bound, number)
}

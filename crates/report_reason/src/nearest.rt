// The walk of a leaf that sets the bound.
ghost use Rattle.std.specs.Prelude.{◌≡◌, option_map};
ghost use Rattle.longest_path.specs.Bounds.{IsWithinCap, IsPeriod};
ghost use Rattle.path_constraints.specs.Questions.{FitsPath};
ghost use Rattle.cert_checker.specs.Flaws as flaws;
ghost use Rattle.cert_checker.specs.Followed as followed;
ghost use Rattle.cert_checker.specs.Walks as walks;
ghost use Rattle.report_reason.specs.Nearest as nearest;

use choice_tree::{Decision, Node, Proof};
use cycle_walk::Sums;
use hoist_base::Line;
use walk_words::sums_of;

/// The sums of a walk, where there is one.
#[tactic(auto, using(crate::proofs::Paths::closed_named))]
fn sums_of_some(line: &Line, path: &[Decision], walk: Option<&Proof>) -> Option<Sums>
    requires fits { FitsPath line.now path.now }
    requires usable { nearest.IsUsable line.now path.now (option_map (λ proof. proof.now) walk) }
    ensures value { result ≡ option_map (flaws.sums_of line.now path.now) (option_map (λ proof. proof.now) walk.entry) }
    ensures small { followed.AreSmall result }
{
    match walk {
        None => None,
        Some(walk) => Some(sums_of(line, path, walk.as_slice())),
    }
}

/// Whether a walk with these sums, where there is one, refutes a period.
fn gives(sums: Option<Sums>, period: u32) -> bool
    requires small { followed.AreSmall sums }
    requires period { IsWithinCap period }
    ensures { result ≡ nearest.gives_by sums period }
{
    match sums {
        None => false,
        Some(sums) => sums.refutes(period),
    }
}

/// The walk of a leaf that refutes the lesser periods, where it has one.
fn low_of(node: &Node) -> Option<&Proof>
    ensures { option_map (λ proof. proof.now) result ≡ walks.low_of node.now }
{
    match node {
        Node::Closed { low, .. } => low.as_ref(),
        Node::Solved { low } => Some(low),
        Node::Left { low } => low.as_ref(),
        _ => None,
    }
}

/// The walk of a leaf that refutes the greater periods, where it has one.
fn high_of(node: &Node) -> Option<&Proof>
    ensures { option_map (λ proof. proof.now) result ≡ walks.high_of node.now }
{
    match node {
        Node::Closed { high, .. } => high.as_ref(),
        _ => None,
    }
}

/// The walk of a leaf that sets the bound: it refutes the period one tick shorter, and no walk of the leaf refutes the
/// bound. A split has none.
pub(crate) fn setting_walk<'a>(
    line: &Line,
    path: &[Decision],
    node: &'a Node,
    bound: u32,
) -> Option<&'a Proof>
    requires fits { FitsPath line.now path.now }
    requires low { nearest.IsUsable line.now path.now (walks.low_of node.now) }
    requires high { nearest.IsUsable line.now path.now (walks.high_of node.now) }
    requires bound { IsPeriod bound }
    ensures { option_map (λ proof. proof.now) result ≡ nearest.setting_walk line.now path.now bound node.now }
{
    let low = low_of(node);
    let high = high_of(node);
    let low_sums = sums_of_some(line, path, low);
    let high_sums = sums_of_some(line, path, high);
    if gives(low_sums, bound) || gives(high_sums, bound) {
        return None;
    }
    if gives(low_sums, bound - 1) {
        return low;
    }
    if gives(high_sums, bound - 1) {
        return high;
    }
    None
}

// The answer that is proposed.

ghost use Rattle.std.specs.Prelude.{◌≤◌};

use crate::hunting::Turns;
use crate::plan_text::write_plan;
use crate::search::Search;
use crate::tree_text::TreeText;
use hoist_base::Line;
use search_data::Problem;
use std::alloc::{AllocError, Global};
use text_writing::{push_word_number, push_word_signed};
use walk_tables::small;

// The text of an answer. `open`: the bound of an open answer; the tree refutes every period below it.
fn answer_text(
    alloc: Global,
    search: &Search<'_>,
    root: u32,
    open: Option<i64>,
) -> Result<Vec<u8>, AllocError> {
    let mut tree = TreeText::new(alloc, search, None)?;
    tree.write(root)?;
    let mut bound = search.top();
    if let Some(shown) = open {
        // an open answer leaves the leaf whose low walk reaches furthest
        let far = tree.far;
        bound = shown.min(far.reach.max(1));
        tree = TreeText::new(alloc, search, Some(far.node))?;
        tree.write(root)?;
    }
    let version: &[u8] = if search.problem.single { b"1" } else { b"2" };
    let verdict: &[u8] = match (open, &search.best) {
        (Some(_), _) => b"open",
        (None, Some(_)) => b"optimal",
        (None, None) => b"none",
    };
    let mut text = Vec::new(alloc);
    text.extend_from_slice(b"hoist answer ")?;
    text.extend_from_slice(version)?;
    text.extend_from_slice(b"\nverdict ")?;
    text.extend_from_slice(verdict)?;
    push_word_signed(&mut text, b"\nbound ", bound)?;
    push_word_number(&mut text, b"\nsplits ", tree.splits)?;
    text.push(b'\n')?;
    match &search.best {
        Some(best) => write_plan(alloc, search.problem, best, &mut text)?,
        None => text.extend_from_slice(b"timetable none\n")?,
    }
    text.extend_from_slice(b"tree\n")?;
    text.extend_from_slice(&tree.text)?;
    text.extend_from_slice(b"end\n")?;
    Ok(text)
}

// The first move that no hoist reaches, whatever tanks are chosen.
fn first_stuck(problem: &Problem) -> Option<usize> {
    for m in 0..problem.nodes {
        if problem.is_stuck(m, None, None) {
            return Some(m);
        }
    }
    None
}

// A bound that is worth a try: that of one carrier for each of the carriers of a period. A line whose stages have
// several tanks has none.
fn natural_bound(alloc: Global, line: &Line) -> Result<i64, AllocError> {
    if !line.single() {
        return Ok(1);
    }
    let one = line.of_degree(alloc, 1)?;
    let problem = Problem::new(alloc, &one)?;
    let mut search = Search::new(alloc, &problem)?;
    Ok(search.root_low()?.wrapping_mul(i64::from(line.degree())))
}

// For how many nodes one of this line counts: the tables of a node grow with the square of the moves.
fn cost_of(problem: &Problem) -> u64 {
    (problem.nodes as u64).saturating_mul(problem.nodes as u64) / 1024 + 1
}

/// Proposes an answer to a line: the bytes of its text. `nodes` says how many nodes of trees all tries together may
/// expand; with 32 moves or more a node counts for several.
///
/// Nothing is promised of the bytes. They depend on the line and on `nodes` alone. It takes time in proportion to
/// `nodes`, and memory for the tree of one try.
pub fn propose(alloc: Global, line: &Line, nodes: u32) -> Result<Vec<u8>, AllocError>
    requires { nodes ≤ 1000000000 }
{
    let problem = Problem::new(alloc, line)?;
    let limit = u64::from(nodes).checked_div(cost_of(&problem)).unwrap_or(0);
    // what isn't spent on the optimum goes to a bound
    let first = limit / 10 * 6;
    let mut search = Search::new(alloc, &problem)?;
    if let Some(m) = first_stuck(&problem) {
        let root = search.tree.push_stuck(small(m))?;
        return answer_text(alloc, &search, root, None);
    }
    let aim = natural_bound(alloc, line)?;
    let low = search.root_low()?.max(aim);
    let mut turns = Turns::new(alloc, line, low)?;
    if let Some(root) = search.solve(&mut turns, first)? {
        let root = search.smallest(root)?;
        return answer_text(alloc, &search, root, None);
    }
    match search.best_bound(limit - first, aim)? {
        Some(proof) if proof.bound < search.top() => answer_text(
            alloc,
            &search,
            proof.root,
            Some(proof.bound),
        ),
        Some(proof) => answer_text(alloc, &search, proof.root, None),
        None => Ok(Vec::new(alloc)),
    }
}

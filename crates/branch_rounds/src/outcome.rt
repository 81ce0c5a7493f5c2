// What a search comes to.
use choice_tree::Tree;
use node_expand::Solved;

/// What a search comes to.
///
/// - `tree`: the questions that were asked, the paths that were closed and those that are left.
/// - `best`: the solved path of the least period.
/// - `bound`: no legal timetable has a smaller period, in ticks.
/// - `splits`: how many questions were asked; at most the budget.
/// - `left`: how many paths are left; where there are any, the budget is spent.
#[derive(Debug, Drop)]
pub struct Outcome {
    pub tree: Tree,
    pub best: Option<Solved>,
    pub bound: u32,
    pub splits: u32,
    pub left: u32,
}

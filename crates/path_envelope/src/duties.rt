// What paths are asked for.

use hoist_base::{Line, Route};

/// Moves of a line by number, with the tick at which each starts and the hoist that carries by it; they come again each
/// period. The carriers go by a route of the line.
#[derive(Clone, Copy)]
pub(crate) struct Duties<'a> {
    pub(crate) line: &'a Line,
    pub(crate) route: &'a Route,
    pub(crate) period: u32,
    pub(crate) starts: &'a [u64],
    pub(crate) hoists: &'a [u32],
}

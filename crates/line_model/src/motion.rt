// A move without its line.

/// What a hoist does in one move: it lifts at the position `from` for `lift` ticks, travels one unit a tick to the
/// position `to`, and lowers there for `lower` ticks.
#[derive(Clone, Copy, Debug, PartialEq, Eq)]
pub struct Motion {
    pub from: u32,
    pub to: u32,
    pub lift: u32,
    pub lower: u32,
}

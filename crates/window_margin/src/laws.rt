//! What holds of orders.

ghost use Rattle.window_margin.specs.Laws.{OneVisitOrder, OneMoveOrder};

/// In every legal timetable two visits of one tank, and two moves that could collide, have exactly one order. So a
/// sibling, which has each order of a timetable, has no other one.
pub fn one_order()
    ensures visits { OneVisitOrder }
    ensures moves { OneMoveOrder }
{}

// Closed walks that refute periods.

use crate::links::{Link, NO_LINK, sums};
use crate::lists::{at, small};
use crate::numbers::{floor, up};
use std::alloc::{AllocError, Global};
use std::mem;

// Stands where no constraint leads to a node.
const NO_WAY: u32 = u32::MAX;

// The constraint by which each node got its tick, and for each node the search that came by last.
#[derive(Drop)]
struct Ways {
    ticks: [i64; 128],
    by: [u32; 128],
    marks: [u32; 128],
}

// Raises the ticks once along each constraint; whether one grew.
fn relax(links: &[Link], t: i64, ways: &mut Ways) -> bool {
    let mut moved = false;
    for i in 0..links.len() {
        let arc = links[i].arc;
        let weight = arc.w.wrapping_add(arc.q.wrapping_mul(t));
        let tick = ways.ticks[arc.from as usize % 128].wrapping_add(weight);
        let to = arc.to as usize % 128;
        if tick > ways.ticks[to] {
            ways.ticks[to] = tick;
            ways.by[to] = small(i);
            moved = true;
        }
    }
    moved
}

// The node from which the way into a node comes.
#[inline]
fn before(links: &[Link], by: &[u32; 128], node: usize) -> usize {
    at(links, by[node % 128] as usize, NO_LINK).arc.from as usize
}

// Goes back from a node over nodes that no search came by; a node where it closes.
fn close_from(links: &[Link], ways: &mut Ways, start: usize) -> Option<usize> {
    let mark = small(start).wrapping_add(1);
    let mut node = start;
    for _step in 0..129 {
        if ways.marks[node % 128] != 0 {
            break;
        }
        ways.marks[node % 128] = mark;
        if ways.by[node % 128] == NO_WAY {
            return None;
        }
        node = before(links, &ways.by, node);
    }
    if ways.by[node % 128] != NO_WAY && ways.marks[node % 128] == mark {
        Some(node)
    } else {
        None
    }
}

// A node of a closed walk of the constraints by which nodes got their ticks.
fn closing(n: usize, links: &[Link], ways: &mut Ways) -> Option<usize> {
    ways.marks = [0; 128];
    for node in 0..n {
        if let Some(found) = close_from(links, ways, node) {
            return Some(found);
        }
    }
    None
}

// Writes the closed walk through a node, in walking order.
fn write_walk(
    links: &[Link],
    by: &[u32; 128],
    goal: usize,
    walk: &mut Vec<Link>,
) -> Result<(), AllocError> {
    walk.clear();
    let mut node = goal;
    for _step in 0..129 {
        walk.push(at(links, by[node % 128] as usize, NO_LINK))?;
        node = before(links, by, node);
        if node == goal {
            break;
        }
    }
    walk.reverse();
    Ok(())
}

// Writes a closed walk that is above 0 at a period, of at most 128 nodes; false where there is none.
fn closed_walk(n: usize, links: &[Link], t: i64, walk: &mut Vec<Link>) -> Result<bool, AllocError> {
    let mut ways = Ways {
        ticks: [0; 128],
        by: [NO_WAY; 128],
        marks: [0; 128],
    };
    for _round in 0..u64::MAX {
        if !relax(links, t, &mut ways) {
            break;
        }
        if let Some(goal) = closing(n, links, &mut ways) {
            write_walk(links, &ways.by, goal, walk)?;
            return Ok(true);
        }
    }
    Ok(false)
}

/// Two closed walks: `low` refutes all periods below one, `high` all from one on. An empty one refutes nothing.
#[derive(Drop)]
pub struct Walks {
    pub low: Vec<Link>,
    pub high: Vec<Link>,
}

impl Walks {
    /// Two empty walks.
    pub fn new(alloc: Global) -> Walks {
        Walks {
            low: Vec::new(alloc),
            high: Vec::new(alloc),
        }
    }

    /// The least period that `low` leaves, where there is a walk; else `none`.
    pub fn reach(&self, none: i64) -> i64 {
        if self.low.is_empty() {
            return none;
        }
        let (w, q) = sums(&self.low);
        up(w, 0i64.wrapping_sub(q))
    }
}

/// Finds walks that refute all periods of a range.
#[derive(Drop)]
pub struct Climber {
    walk: Vec<Link>,
}

impl Climber {
    /// It takes no memory yet.
    pub fn new(alloc: Global) -> Climber {
        Climber {
            walk: Vec::new(alloc),
        }
    }

    /// Writes walks that refute each period from `from` to `cap` - 1, beginning with a look at the period `t`; false
    /// where one of the periods has none.
    pub fn climb(
        &mut self,
        n: usize,
        links: &[Link],
        (from, cap): (i64, i64),
        t: i64,
        walks: &mut Walks,
    ) -> Result<bool, AllocError> {
        walks.low.clear();
        walks.high.clear();
        let (mut low, mut high) = (from, cap);
        let mut t = t.min(cap.wrapping_sub(1)).max(from);
        for _turn in 0..u64::MAX {
            if low >= high {
                break;
            }
            if !closed_walk(n, links, t, &mut self.walk)? {
                return Ok(false);
            }
            let (w, q) = sums(&self.walk);
            if q < 0 {
                low = up(w, 0i64.wrapping_sub(q));
                t = low;
                mem::swap(&mut walks.low, &mut self.walk);
            } else if q == 0 {
                walks.low.clear();
                mem::swap(&mut walks.high, &mut self.walk);
                return Ok(true);
            } else {
                high = floor(0i64.wrapping_sub(w), q).wrapping_add(1);
                t = high.wrapping_sub(1);
                mem::swap(&mut walks.high, &mut self.walk);
            }
        }
        Ok(true)
    }
}

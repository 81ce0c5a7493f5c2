// The way through a tree of questions, without a recursion: the frames of the nodes on the path.

use crate::literals::Literal;
use crate::search::{Best, Search, WHOLE};
use crate::state::{Kid, Range, State};
use crate::tree::Branch;
use std::alloc::AllocError;
use walk_tables::{Arc, LEVELS, Levels, Link, at, index, put, small, value};

/// A node whose children are looked at one after another.
#[derive(Drop)]
pub(crate) struct Frame {
    /// The node's least feasible period.
    low: i64,
    kids: Vec<Kid>,
    /// The children in the order in which they are looked at, and how many are done.
    order: Vec<u32>,
    turn: usize,
    branches: Vec<Branch>,
    /// What the finished children rest on.
    rest: Levels,
    /// The node's share of the tree, the sum of its open children's sizes, and how much was shut before.
    weight: u64,
    whole: u64,
    shut: u64,
    /// The child at hand: its share of the tree, how much was shut before it, and the moves to which it gave motions.
    share: u64,
    before: u64,
    got: Vec<u32>,
}

/// What comes next.
#[derive(Drop)]
pub(crate) enum Step {
    /// The next child of the last frame.
    Down,
    /// A node is finished, with the levels that it rests on.
    Up { node: u32, levels: Levels },
    /// The try gives up.
    Stop,
}

// What is done with a child once its decision is on the path.
#[derive(Drop)]
enum Open {
    Enter(State),
    Done(Step),
}

// How early a child is looked at: closed ones first, then the smaller one, or in a hunt the one with the lower least
// period.
fn rank(kid: &Kid, hunts: bool) -> (i64, i64) {
    match &kid.state {
        None => (0, 0),
        Some(state) if hunts => (state.low, 0i64.wrapping_sub(kid.size)),
        Some(_) => (1, kid.size),
    }
}

impl<'a> Search<'a> {
    /// Gives back all frames.
    pub(crate) fn drop_frames(&mut self) -> Result<(), AllocError> {
        for _turn in 0..self.frames.len() {
            let Some(frame) = self.frames.pop() else {
                break
            };
            self.free_frame(frame)?;
        }
        Ok(())
    }

    fn free_frame(&mut self, frame: Frame) -> Result<(), AllocError> {
        for kid in frame.kids {
            self.free_some(kid.state)?;
        }
        Ok(())
    }

    // Whether a try that is past its quota goes on, as it seems to be near its end.
    fn goes_on(&mut self) -> bool {
        if self.nodes > self.one.stop {
            let spent = self.nodes.wrapping_sub(self.one.begun);
            let share = (self.one.shut >> 20).wrapping_mul(self.one.quota.wrapping_mul(4));
            if spent > share / (WHOLE >> 20) {
                return false;
            }
            self.one.stop = self.one.stop.wrapping_add(self.one.quota / 2);
        }
        true
    }

    // Takes a state's least ticks as the best timetable.
    fn take_best(&mut self, state: &State) -> Result<(), AllocError> {
        let mut best = Best {
            period: state.low,
            ticks: Vec::new(self.alloc),
            hoists: Vec::new(self.alloc),
            route: Vec::new(self.alloc),
        };
        for node in 0..self.problem.nodes {
            best.ticks.push(value(at(&state.at_low, node, 0)))?;
            best.hoists.push(at(&self.hoist, node, None).unwrap_or(0))?;
        }
        for visit in 0..self.problem.visits {
            best.route.push(at(&self.tank, visit, None).unwrap_or(0))?;
        }
        self.cap = state.low;
        self.best = Some(best);
        Ok(())
    }

    // A leaf for the path as it stands.
    fn leaf_step(&mut self, solved: bool, t: i64) -> Result<Step, AllocError> {
        Ok(match self.leaf(solved, t)? {
            Some((node, levels)) => Step::Up { node, levels },
            None => Step::Stop,
        })
    }

    /// Begins with a node below the path.
    pub(crate) fn expand(&mut self, state: State) -> Result<Step, AllocError> {
        if self.is_spent() || !self.goes_on() || self.path.len() >= LEVELS {
            self.free(state)?;
            return Ok(Step::Stop);
        }
        self.nodes = self.nodes.wrapping_add(1);
        let low = state.low;
        let state = if state.high >= self.cap {
            self.free(state)?;
            let range = Range {
                low,
                high: self.cap.wrapping_sub(1),
            };
            match self.settle(range, None)? {
                Some(state) => state,
                None => return self.leaf_step(false, low),
            }
        } else {
            state
        };
        if self.is_solved(&state) {
            self.take_best(&state)?;
            self.free(state)?;
            return self.leaf_step(true, 1);
        }
        self.split(state)
    }

    // Asks a question.
    fn split(&mut self, state: State) -> Result<Step, AllocError> {
        let kids = self.kids_of(&state)?;
        if kids.is_empty() {
            self.free(state)?;
            return Ok(Step::Stop);
        }
        let mut ranks = Vec::new(self.alloc);
        let mut branches = Vec::new(self.alloc);
        let mut whole = 0u64;
        for place in 0..kids.len() {
            let kid = &kids[place];
            ranks.push((rank(kid, self.one.hunts), small(place)))?;
            if kid.state.is_some() {
                whole = whole.wrapping_add((index(kid.size) as u64).wrapping_add(1));
            }
            let literal = self.number_of(kid.literal)?;
            branches.push(Branch { literal, node: 0 })?;
        }
        ranks.sort_unstable();
        let mut order = Vec::new(self.alloc);
        for (_, place) in ranks.iter() {
            order.push(*place)?;
        }
        let low = state.low;
        self.free(state)?;
        self.frames.push(Frame {
            low,
            kids,
            order,
            turn: 0,
            branches,
            rest: Levels::none(),
            weight: self.one.weight,
            whole,
            shut: self.one.shut,
            share: 0,
            before: 0,
            got: Vec::new(self.alloc),
        })?;
        Ok(Step::Down)
    }

    fn push_order(&mut self, arc: Arc, number: u32, level: u32) -> Result<(), AllocError> {
        let word = small(self.problem.base.len()).wrapping_add(number);
        self.links.push(Link { arc, word, level })?;
        Ok(())
    }

    // Puts a child's decision on the path; `got` takes the moves that got motions.
    fn decide(&mut self, kid: &Kid, number: u32, got: &mut Vec<u32>) -> Result<(), AllocError> {
        let level = small(self.path.len());
        match kid.literal {
            Literal::Take { visit, tank } => {
                put(&mut self.tank, visit as usize, Some(tank));
                put(&mut self.took, visit as usize, Some(level));
                if kid.stuck.is_none() {
                    self.derive(got)?;
                }
                for change in kid.changes.iter() {
                    self.links.push(Link {
                        arc: change.arc,
                        word: change.word,
                        level,
                    })?;
                }
            }
            Literal::Give { m, hoist } => {
                put(&mut self.hoist, m as usize, Some(hoist));
                put(&mut self.gave, m as usize, Some(level));
            }
            Literal::Order { .. } => {
                if let Some(arc) = kid.arc {
                    self.push_order(arc, number, level)?;
                }
            }
        }
        Ok(())
    }

    // Takes a child's decision off the path.
    fn take_back(&mut self, kid: &Kid, got: &[u32]) -> Result<(), AllocError> {
        match kid.literal {
            Literal::Take { visit, .. } => {
                self.undo(got);
                put(&mut self.tank, visit as usize, None);
                put(&mut self.took, visit as usize, None);
                let rest = self.links.len().saturating_sub(kid.changes.len());
                self.links.truncate(rest);
            }
            Literal::Give { m, .. } => {
                put(&mut self.hoist, m as usize, None);
                put(&mut self.gave, m as usize, None);
            }
            Literal::Order { .. } => {
                self.links.pop();
            }
        }
        self.leave()
    }

    // A leaf for a move that a choice leaves to no hoist.
    fn stuck_step(&mut self, m: u32) -> Result<Step, AllocError> {
        let mut levels = Levels::none();
        self.put_move_tanks(m as usize, &mut levels);
        let node = self.tree.push_stuck(m)?;
        Ok(Step::Up { node, levels })
    }

    // Puts the decision of a frame's child on the path, and says what is to be done there.
    fn open_kid(&mut self, frame: &mut Frame, place: usize) -> Result<Open, AllocError> {
        let number = at(
            &frame.branches,
            place,
            Branch {
                literal: 0,
                node: 0,
            },
        )
        .literal;
        let Some(kid) = frame.kids.get_mut(place) else {
            return Ok(Open::Done(Step::Stop))
        };
        frame.got.clear();
        self.decide(kid, number, &mut frame.got)?;
        let full = self.enter(number)?;
        let state = kid.state.take();
        let done = match (state, kid.stuck, full) {
            (None, Some(m), _) => self.stuck_step(m)?,
            (None, None, _) => self.leaf_step(false, frame.low)?,
            (Some(state), _, Some(full)) => {
                self.free(state)?;
                let (node, levels) = self.graft(full);
                Step::Up { node, levels }
            }
            (Some(state), _, None) => {
                frame.share = Search::share_of(frame.weight, kid.size, frame.whole);
                frame.before = self.one.shut;
                self.one.weight = frame.share;
                return Ok(Open::Enter(state));
            }
        };
        frame.share = 0;
        frame.before = self.one.shut;
        Ok(Open::Done(done))
    }

    // Looks at the next child of the last frame, or finishes it.
    fn down(&mut self) -> Result<Step, AllocError> {
        let Some(mut frame) = self.frames.pop() else {
            return Ok(Step::Stop)
        };
        let Some(place) = frame.order.get(frame.turn).copied() else {
            return self.finish(frame)
        };
        let open = self.open_kid(&mut frame, place as usize)?;
        self.frames.push(frame)?;
        match open {
            Open::Enter(state) => self.expand(state),
            Open::Done(step) => Ok(step),
        }
    }

    // All children of a frame are done: its split.
    fn finish(&mut self, frame: Frame) -> Result<Step, AllocError> {
        let mut levels = frame.rest;
        levels.cut(self.path.len());
        let node = self.tree.push_split(&frame.branches)?;
        self.free_frame(frame)?;
        self.note(node, &levels)?;
        Ok(Step::Up { node, levels })
    }

    // A child of the last frame is done.
    fn up(&mut self, node: u32, levels: Levels) -> Result<Step, AllocError> {
        let Some(mut frame) = self.frames.pop() else {
            return Ok(Step::Stop)
        };
        let place = at(&frame.order, frame.turn, 0) as usize;
        self.one.shut = frame.before.wrapping_add(frame.share);
        if let Some(kid) = frame.kids.get(place) {
            self.take_back(kid, &frame.got)?;
        }
        if !levels.has(self.path.len()) {
            // the proof below doesn't need this split
            self.one.shut = frame.shut.wrapping_add(frame.weight);
            self.free_frame(frame)?;
            return Ok(Step::Up { node, levels });
        }
        if let Some(branch) = frame.branches.get_mut(place) {
            branch.node = node;
        }
        frame.rest.join(&levels);
        frame.turn = frame.turn.wrapping_add(1);
        self.frames.push(frame)?;
        Ok(Step::Down)
    }

    /// Refutes every period below the cap below a state: the node of the tree; none where the try gives up.
    pub(crate) fn refuted(&mut self, state: State) -> Result<Option<u32>, AllocError> {
        let mut step = self.expand(state)?;
        for _turn in 0..u64::MAX {
            step = match step {
                Step::Down => self.down()?,
                Step::Up { node, .. } if self.frames.is_empty() => return Ok(Some(node)),
                Step::Up { node, levels } => self.up(node, levels)?,
                Step::Stop => break,
            };
        }
        self.drop_frames()?;
        Ok(None)
    }
}

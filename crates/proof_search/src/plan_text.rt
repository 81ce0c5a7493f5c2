// The text of a timetable.

use crate::search::Best;
use search_data::{Problem, Ride};
use std::alloc::{AllocError, Global};
use text_writing::{push_word_number, push_word_pair, push_word_signed};
use walk_tables::{at, index, put, small};

// A timetable with the motions of its moves and their starts.
#[derive(Drop)]
struct Plan<'a> {
    problem: &'a Problem,
    best: &'a Best,
    rides: Vec<Ride>,
    starts: Vec<i64>,
}

impl<'a> Plan<'a> {
    fn new(alloc: Global, problem: &'a Problem, best: &'a Best) -> Result<Plan<'a>, AllocError> {
        let mut rides = Vec::new(alloc);
        let mut starts = Vec::new(alloc);
        for m in 0..problem.nodes {
            let visit = problem.visit_of(m);
            let from = at(&best.route, visit, 0);
            let to = at(&best.route, visit.wrapping_add(1), 0);
            rides.push(problem.ride(problem.ride_between(problem.step_of(m), from, to)))?;
            starts.push(at(&best.ticks, m, 0).wrapping_add(problem.load))?;
        }
        Ok(Plan {
            problem,
            best,
            rides,
            starts,
        })
    }

    fn start(&self, m: usize) -> i64 {
        at(&self.starts, m, 0)
    }

    fn lasts(&self, m: usize) -> i64 {
        match self.rides.get(m) {
            Some(ride) => ride.lasts,
            None => 0,
        }
    }

    fn write_carriers(&self, text: &mut Vec<u8>) -> Result<(), AllocError> {
        for c in 0..self.problem.degree {
            let first = self.problem.node(c, 0);
            let last = self.problem.node(c, self.problem.steps.wrapping_sub(1));
            let put = self.start(first).wrapping_sub(self.problem.load);
            let off = self
                .start(last)
                .wrapping_add(self.lasts(last))
                .wrapping_add(self.problem.unload);
            push_word_number(text, b"carrier ", c as u64)?;
            push_word_signed(text, b" put ", put)?;
            push_word_signed(text, b" off ", off)?;
            text.push(b'\n')?;
        }
        Ok(())
    }

    fn write_choices(&self, text: &mut Vec<u8>) -> Result<(), AllocError> {
        for visit in 0..self.problem.visits {
            if self.problem.stop_of(visit).count > 1 {
                let carrier = small(self.problem.carrier_of(visit));
                push_word_pair(
                    text,
                    b"choice ",
                    carrier,
                    small(self.problem.stage_of(visit)),
                )?;
                push_word_number(text, b" ", u64::from(at(&self.best.route, visit, 0)))?;
                text.push(b'\n')?;
            }
        }
        Ok(())
    }

    fn write_moves(&self, text: &mut Vec<u8>) -> Result<(), AllocError> {
        for m in 0..self.problem.nodes {
            let carrier = small(self.problem.carrier_of_move(m));
            push_word_pair(text, b"move ", carrier, small(self.problem.step_of(m)))?;
            push_word_signed(text, b" start ", self.start(m))?;
            push_word_number(text, b" hoist ", u64::from(at(&self.best.hoists, m, 0)))?;
            text.push(b'\n')?;
        }
        Ok(())
    }

    // Raises the row of a hoist to where a move has it.
    fn carry(&self, m: usize, row: &mut [i64]) {
        let Some(ride) = self.rides.get(m).copied() else {
            return
        };
        let ticks = row.len();
        for u in 0..index(ride.lasts).saturating_add(1) {
            let tick = index(self.start(m)).wrapping_add(u);
            let place = if ticks == 0 { 0 } else { tick % ticks };
            let there = ride
                .place(i64::try_from(u).unwrap_or(0))
                .max(at(row, place, 0));
            put(row, place, there);
        }
    }

    // The lowest path of a hoist above the one below it.
    fn lift(&self, hoist: usize, row: &mut [i64]) {
        for cell in row.iter_mut() {
            *cell = cell.wrapping_add(self.problem.gap);
        }
        if hoist == 0 {
            row.fill(0);
        }
        for m in 0..self.problem.nodes {
            if at(&self.best.hoists, m, 0) as usize == hoist {
                self.carry(m, row);
            }
        }
        for _turn in 0..2 {
            follow(row);
            row.reverse();
            follow(row);
            row.reverse();
        }
    }

    fn write_paths(&self, alloc: Global, text: &mut Vec<u8>) -> Result<(), AllocError> {
        let mut row = Vec::new(alloc);
        row.resize(index(self.best.period), 0i64)?;
        for hoist in 0..self.problem.hoists {
            self.lift(hoist, &mut row);
            push_word_number(text, b"path ", hoist as u64)?;
            for place in row.iter() {
                push_word_signed(text, b" ", *place)?;
            }
            text.push(b'\n')?;
        }
        Ok(())
    }
}

// Raises each position to one less than that before, the first to one less than the last.
fn follow(row: &mut [i64]) {
    let mut before = match row.last() {
        Some(last) => *last,
        None => 0,
    };
    for cell in row.iter_mut() {
        before = before.wrapping_sub(1).max(*cell);
        *cell = before;
    }
}

/// Writes the lines of a timetable.
pub(crate) fn write_plan(
    alloc: Global,
    problem: &Problem,
    best: &Best,
    text: &mut Vec<u8>,
) -> Result<(), AllocError> {
    let plan = Plan::new(alloc, problem, best)?;
    push_word_signed(text, b"timetable ", best.period)?;
    text.push(b'\n')?;
    plan.write_carriers(text)?;
    plan.write_choices(text)?;
    plan.write_moves(text)?;
    plan.write_paths(alloc, text)
}

// Tables of longest walks: the walk from i to j stands at i * n + j.

use crate::links::{Arc, Link};
use crate::lists::{at, put};
use crate::numbers::{FINE, packed, parts};
use std::alloc::AllocError;

/// Stands where no walk leads.
pub const NEVER: i64 = -(1 << 60);

/// Value and signed slope of a closed walk whose value is above 0.
#[derive(Clone, Copy)]
pub struct Loop {
    pub value: i64,
    pub slope: i64,
}

// The part of a table from a place on; empty where the table ends before.
#[inline]
fn row(table: &[i64], start: usize, n: usize) -> &[i64] {
    let end = start.wrapping_add(n);
    if start <= end && end <= table.len() {
        &table[start..end]
    } else {
        &table[..0]
    }
}

#[inline]
fn row_mut(table: &mut [i64], start: usize, n: usize) -> &mut [i64] {
    let end = start.wrapping_add(n);
    if start <= end && end <= table.len() {
        &mut table[start..end]
    } else {
        &mut table[..0]
    }
}

// Raises a row to another one that comes `front` later.
#[inline]
fn raise(row: &mut [i64], other: &[i64], front: i64) {
    if row.len() != other.len() {
        return;
    }
    for j in 0..row.len() {
        row[j] = row[j].max(front.wrapping_add(other[j]));
    }
}

// Makes a copy of a part of a table.
fn copy_row(table: &[i64], start: usize, n: usize, copy: &mut Vec<i64>) -> Result<(), AllocError> {
    copy.clear();
    copy.extend_from_slice(row(table, start, n))
}

// Writes the weights of single constraints at a period into a table.
fn write_links(
    n: usize,
    links: &[Link],
    t: i64,
    sign: i64,
    table: &mut Vec<i64>,
) -> Result<(), AllocError> {
    table.clear();
    table.resize(n.wrapping_mul(n), NEVER)?;
    for i in 0..n {
        put(table, i.wrapping_mul(n).wrapping_add(i), 0);
    }
    for link in links {
        let weight = packed(link.arc.w, link.arc.q, t, sign);
        let place = (link.arc.from as usize)
            .wrapping_mul(n)
            .wrapping_add(link.arc.to as usize);
        let old = at(table, place, NEVER);
        put(table, place, weight.max(old));
    }
    Ok(())
}

// The first node with a closed walk that is above 0.
fn first_loop(n: usize, table: &[i64]) -> Option<Loop> {
    for k in 0..n {
        if let Some(found) = loop_at(n, table, k) {
            return Some(found);
        }
    }
    None
}

#[inline]
fn loop_at(n: usize, table: &[i64], k: usize) -> Option<Loop> {
    let own = at(table, k.wrapping_mul(n).wrapping_add(k), 0);
    if own > FINE / 2 {
        let (value, slope) = parts(own);
        return Some(Loop { value, slope });
    }
    None
}

// Lets all walks lead over one more node, whose row is given.
fn lead_over(n: usize, table: &mut [i64], k: usize, middle: &[i64]) {
    let mut start = 0usize;
    for _i in 0..n {
        let target = row_mut(table, start, n);
        let front = at(target, k, NEVER);
        if front > NEVER / 2 {
            raise(target, middle, front);
        }
        start = start.wrapping_add(n);
    }
}

/// Makes the table of all longest walks of `n` nodes at the period `t`; or answers a closed walk that is above 0 there.
///
/// Of equal values the one with the greater `sign * q` counts. `room` is for a row.
pub fn walks_between(
    n: usize,
    links: &[Link],
    t: i64,
    sign: i64,
    table: &mut Vec<i64>,
    room: &mut Vec<i64>,
) -> Result<Option<Loop>, AllocError> {
    write_links(n, links, t, sign, table)?;
    for k in 0..n {
        if let Some(found) = loop_at(n, table, k) {
            return Ok(Some(found));
        }
        copy_row(table, k.wrapping_mul(n), n, room)?;
        lead_over(n, table, k, room);
    }
    Ok(first_loop(n, table))
}

/// Takes one more constraint, of a packed weight, into a table; it must close no walk above 0.
pub fn patch(
    n: usize,
    table: &mut [i64],
    arc: Arc,
    weight: i64,
    room: &mut Vec<i64>,
) -> Result<(), AllocError> {
    let (from, to) = (arc.from as usize, arc.to as usize);
    copy_row(table, to.wrapping_mul(n), n, room)?;
    let own = at(room, to, NEVER);
    let mut start = 0usize;
    for _i in 0..n {
        let target = row_mut(table, start, n);
        let front = at(target, from, NEVER).wrapping_add(weight);
        if front.wrapping_add(own) > at(target, to, NEVER) {
            raise(target, room, front);
        }
        start = start.wrapping_add(n);
    }
    Ok(())
}

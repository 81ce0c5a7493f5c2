//! Reads and writes by number that look whether the place is there, and whole divisions.

use std::alloc::AllocError;

/// Stands for "no path": below all that paths bring, by more than they bring back.
pub(crate) const FAR: i32 = -536_870_912;

/// What stands at a place of a list, or `none` where the list has no such place.
#[inline]
pub(crate) fn at<T: Copy>(list: &[T], place: usize, none: T) -> T {
    match list.get(place) {
        Some(value) => *value,
        None => none,
    }
}

/// Writes at a place of a list, where it is there.
#[inline]
pub(crate) fn put<T: Copy>(list: &mut [T], place: usize, value: T) {
    if place < list.len() {
        list[place] = value;
    }
}

/// The place of row `i` and column `j` in a table whose rows have `width` places.
#[inline]
pub(crate) fn cell(width: usize, i: usize, j: usize) -> usize {
    i.wrapping_mul(width).wrapping_add(j)
}

/// The `count` places of a list from `begin` on, or none where it has no such places.
#[inline]
pub(crate) fn part(list: &[i32], begin: usize, count: usize) -> &[i32] {
    let end = begin.saturating_add(count);
    if end <= list.len() {
        &list[begin..end]
    } else {
        &list[..0]
    }
}

/// Makes a list the same as another one.
pub(crate) fn copy_list<T: Copy>(into: &mut Vec<T>, from: &[T]) -> Result<(), AllocError> {
    into.clear();
    into.extend_from_slice(from)
}

/// a / b rounded down; 0 where b isn't above 0.
#[inline]
pub(crate) fn floor(a: i32, b: i32) -> i32 {
    if b <= 0 {
        return 0;
    }
    a.div_euclid(b)
}

/// a / b rounded up; 0 where b isn't above 0.
#[inline]
pub(crate) fn ceil(a: i32, b: i32) -> i32 {
    floor(a.wrapping_neg(), b).wrapping_neg()
}

/// a / b rounded down, or a where b is 0.
#[inline]
pub(crate) fn share(a: u64, b: u64) -> u64 {
    if b == 0 {
        return a;
    }
    a / b
}

/// What is left of a after as many whole b as there are; 0 where b isn't above 0.
#[inline]
pub(crate) fn rest(a: i64, b: i64) -> i64 {
    if b <= 0 {
        return 0;
    }
    a.rem_euclid(b)
}

/// A number, or the nearest one that isn't further than a million from 0.
pub(crate) fn narrow(number: i64) -> i32 {
    if number < -1_000_000 {
        -1_000_000
    } else if number > 1_000_000 {
        1_000_000
    } else {
        number as i32
    }
}

/// A number, or 0 where it's below that.
pub(crate) fn natural(number: i64) -> usize {
    if number < 0 { 0 } else { number as usize }
}

/// Raises the places of a row to those of another one plus `more`.
#[inline]
fn raise(row: &mut [i32], other: &[i32], more: i32) {
    let count = row.len().min(other.len());
    for j in 0..count {
        row[j] = more.wrapping_add(other[j]).max(row[j]);
    }
}

/// Raises some columns of a table's row that begins at `begin` to those of another row plus `more`.
#[inline]
pub(crate) fn raise_columns(
    table: &mut [i32],
    begin: usize,
    row: &[i32],
    columns: &[u32],
    more: i32,
) {
    for column in columns {
        let j = *column as usize;
        let place = begin.wrapping_add(j);
        let value = at(row, j, FAR).wrapping_add(more);
        put(table, place, value.max(at(table, place, value)));
    }
}

/// Raises the places of a table from `begin` on to those of a row plus `more`.
#[inline]
pub(crate) fn raise_part(table: &mut [i32], begin: usize, row: &[i32], more: i32) {
    let end = begin.saturating_add(row.len());
    if end <= table.len() {
        raise(&mut table[begin..end], row, more);
    }
}

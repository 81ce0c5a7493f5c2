// Reads and writes of lists that need no proof that the place is there.

/// What stands at a place of a list, or `none` past its end.
#[inline]
pub fn at<T: Copy>(list: &[T], place: usize, none: T) -> T {
    match list.get(place) {
        Some(item) => *item,
        None => none,
    }
}

/// Writes at a place of a list; past its end nothing is written.
#[inline]
pub fn put<T: Copy>(list: &mut [T], place: usize, item: T) {
    if place < list.len() {
        list[place] = item;
    }
}

/// A number of 32 bits, or the greatest one where it doesn't fit.
#[inline]
pub fn small(number: usize) -> u32 {
    if number < u32::MAX as usize {
        number as u32
    } else {
        u32::MAX
    }
}

/// A number as a place of a list; 0 for one below 0.
#[inline]
pub fn index(number: i64) -> usize {
    if number < 0 { 0 } else { number as usize }
}

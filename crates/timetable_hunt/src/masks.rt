//! Sets of hoists: bit h of a mask stands for hoist h.

/// The set of one hoist; the empty one for a number that no hoist has.
#[inline]
pub(crate) fn only(hoist: usize) -> u8 {
    if hoist < 8 { 1u8 << hoist } else { 0 }
}

/// Whether a set has a hoist.
#[inline]
pub(crate) fn has(mask: u8, hoist: usize) -> bool {
    mask & only(hoist) != 0
}

/// Whether a set has one hoist, or none.
#[inline]
pub(crate) fn is_one(mask: u8) -> bool {
    mask & mask.wrapping_sub(1) == 0
}

/// The lowest hoist of a set.
#[inline]
pub(crate) fn lowest(mask: u8) -> usize {
    mask.trailing_zeros() as usize
}

/// A set without a hoist.
#[inline]
pub(crate) fn without(mask: u8, hoist: usize) -> u8 {
    mask & (255 ^ only(hoist))
}

/// The hoists of a set and those next to them.
pub(crate) fn with_neighbours(mask: u8) -> u8 {
    mask | mask >> 1 | (mask & 127) << 1
}

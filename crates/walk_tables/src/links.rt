// Constraints, and where they come from.

/// A constraint: the tick of `to` is at least `w + q * T` behind that of `from`.
#[derive(Clone, Copy)]
pub struct Arc {
    pub from: u32,
    pub to: u32,
    pub w: i64,
    pub q: i64,
}

/// Stands where no constraint is.
pub const NO_ARC: Arc = Arc {
    from: 0,
    to: 0,
    w: 0,
    q: 0,
};

/// The level of a constraint that holds on every path.
pub const BASE: u32 = u32::MAX;

/// A constraint with its name, and with the level of the path that brought it.
#[derive(Clone, Copy)]
pub struct Link {
    pub arc: Arc,
    pub word: u32,
    pub level: u32,
}

/// Stands where no constraint is.
pub const NO_LINK: Link = Link {
    arc: NO_ARC,
    word: 0,
    level: BASE,
};

/// The sums of w and of q over a walk.
pub fn sums(walk: &[Link]) -> (i64, i64) {
    let mut w = 0i64;
    let mut q = 0i64;
    for link in walk {
        w = w.wrapping_add(link.arc.w);
        q = q.wrapping_add(link.arc.q);
    }
    (w, q)
}

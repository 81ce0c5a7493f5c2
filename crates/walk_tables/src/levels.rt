// Sets of levels.

/// How many levels a path may have.
pub const LEVELS: usize = 1024;

/// A set of levels, each below `LEVELS`.
#[derive(Clone, Copy)]
pub struct Levels {
    words: [u64; 16],
}

impl Levels {
    /// The empty set.
    pub fn none() -> Levels {
        Levels { words: [0; 16] }
    }

    /// Whether the level is there.
    #[inline]
    pub fn has(&self, level: usize) -> bool {
        self.words[level / 64 % 16] >> (level % 64) & 1 == 1
    }

    /// Puts a level in.
    #[inline]
    pub fn put(&mut self, level: usize) {
        self.words[level / 64 % 16] |= 1 << (level % 64);
    }

    /// Takes a level out.
    #[inline]
    pub fn cut(&mut self, level: usize) {
        self.words[level / 64 % 16] &= !(1 << (level % 64));
    }

    /// Puts all levels of another set in.
    pub fn join(&mut self, other: &Levels) {
        for k in 0..16 {
            self.words[k] |= other.words[k];
        }
    }
}

// What reading a line file gives.
ghost use Rattle.std.specs.Prelude.{◌≡◌};
ghost use Rattle.line_text.specs.Flaws.{flaw_why};

use hoist_base::{Flaw, Line, Name};

/// A table of a line file: the root, a tank or a stage by its number, from 0.
#[derive(Clone, Copy, Debug, PartialEq, Eq)]
pub enum Place {
    Root,
    Tank(u32),
    Stage(u32),
}

/// A key, by its name and the table that it stands in or is absent from.
#[derive(Debug, Drop)]
pub struct Key {
    pub table: Place,
    pub name: Name,
}

/// The first thing that is wrong with a line file. Tanks and stages go by their numbers, from 0.
#[derive(Debug, Drop)]
pub enum Why {
    /// The bytes are no TOML document.
    NotToml,
    /// The key is required and absent.
    Missing { key: Key },
    /// The table has a key that no line file has there.
    Unknown { key: Key },
    /// The key's value is of another kind.
    WrongKind { key: Key },
    /// The integer at the key, or the length of the array there, is out of range.
    Range { key: Key, value: i64 },
    /// The tank's name isn't 1 to 32 letters, digits, `_` and `-`.
    BadName { tank: u32 },
    /// Tanks a < b have one name.
    TwiceNamed { a: u32, b: u32 },
    /// Tanks a < b are at one position.
    SamePlace { a: u32, b: u32 },
    /// The stage names a tank that isn't there.
    NoTank { stage: u32 },
    /// The stage names a tank twice.
    TwiceTank { stage: u32 },
    /// The stage and the next have a tank in common.
    SameTank { stage: u32 },
    /// The greatest dwell of the stage is below its least.
    EmptyWindow { stage: u32 },
    /// The hoists side by side need more than the track.
    NoRoom { need: u32, track: u32 },
}

impl Why {
    /// What is wrong with a file whose line has this flaw.
    pub fn of_flaw(flaw: Flaw) -> Why
        ensures { result ≡ flaw_why flaw }
    {
        match flaw {
            Flaw::BadName { tank } => Why::BadName { tank },
            Flaw::TwiceNamed { a, b } => Why::TwiceNamed { a, b },
            Flaw::SamePlace { a, b } => Why::SamePlace { a, b },
            Flaw::NoTank { stage } => Why::NoTank { stage },
            Flaw::TwiceTank { stage } => Why::TwiceTank { stage },
            Flaw::SameTank { stage } => Why::SameTank { stage },
            Flaw::EmptyWindow { stage } => Why::EmptyWindow { stage },
            Flaw::NoRoom { need, track } => Why::NoRoom { need, track },
        }
    }
}

/// The line of a file, or why the file has none.
#[derive(Debug, Drop)]
pub enum LineRead {
    Ready(Line),
    Refused(Why),
}

// What is printed of one line.
ghost use Rattle.std.specs.Prelude.{◌≡◌};

use std::marker::Model;

/// A text, seen as the list of its bytes.
#[derive(Debug, Drop)]
pub struct Text {
    bytes: Vec<u8>,
}

impl Model for Text {
    ghost use Rattle.std.specs.Prelude.{List, ℕ};

    ghost Value = { List ℕ };

    ghost view = { λ text. text.bytes.items };
}

impl Text {
    /// The text of these bytes. It takes no memory.
    pub fn from_vec(bytes: Vec<u8>) -> Text
        ensures { result ≡ bytes.items }
    {
        Text { bytes }
    }

    /// The bytes of the text.
    pub fn as_slice(&self) -> &[u8]
        ensures { result.now ≡ self.now }
    {
        self.bytes.as_slice()
    }
}

/// What is printed of one line: the text of its answer, with the status of its verdict, 0 for an optimal one, 1 where
/// there is no timetable and 3 where paths are left.
#[derive(Debug, Drop)]
pub struct Single {
    pub status: u32,
    pub text: Text,
}

/// What is printed of several lines, in their order, seen as a list.
#[derive(Debug, Drop)]
pub struct Singles {
    singles: Vec<Single>,
}

impl Model for Singles {
    ghost use Rattle.std.specs.Prelude.{List};
    ghost use Rattle.batch_lines.specs.declared.single.Single.{Single};

    ghost Value = { List Single };

    ghost view = { λ singles. singles.singles.items };
}

impl Singles {
    /// These, in this order. It takes no memory.
    pub fn from_vec(singles: Vec<Single>) -> Singles
        ensures { result ≡ singles.items }
    {
        Singles { singles }
    }

    /// What is printed of each line, in the order of the lines.
    pub fn as_slice(&self) -> &[Single]
        ensures { result.now ≡ self.now }
    {
        self.singles.as_slice()
    }
}

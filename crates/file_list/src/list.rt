// Names of files.
ghost use Rattle.std.specs.Prelude.{◌≡◌, map, string_bytes};

use std::marker::Model;

/// Names of files, in order, seen as the list of their bytes.
#[derive(Debug, Drop)]
pub struct FileList {
    names: Vec<String>,
}

impl Model for FileList {
    ghost use Rattle.std.specs.Prelude.{List, ℕ, map, string_bytes};

    ghost Value = { List (List ℕ) };

    ghost view = { λ list. map string_bytes list.names.items };
}

impl FileList {
    /// The list of these names. It takes no memory.
    pub fn from_vec(names: Vec<String>) -> FileList
        ensures { result ≡ map string_bytes names.items }
    {
        FileList { names }
    }

    /// The names, in order.
    pub fn as_slice(&self) -> &[String]
        ensures { map string_bytes result.now ≡ self.now }
    {
        self.names.as_slice()
    }
}

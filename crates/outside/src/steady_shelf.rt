// Files in memory that are always there.
ghost use Rattle.std.specs.Prelude.{◌≡◌, Some};
ghost use Rattle.outside.specs.Shelf.{files_of};

use crate::shelf::find;
use crate::{Shelf, ShelfFault};
use std::alloc::Global;
use std::marker::Model;

/// Files in memory. No read of them fails: a name that no file has reads as the empty file.
#[derive(Drop)]
pub struct SteadyShelf {
    files: Vec<(String, Vec<u8>)>,
}

impl Model for SteadyShelf {
    ghost use Rattle.outside.specs.Shelf.{Files, files_of};

    ghost Value = { Files };

    ghost view = { λ shelf. files_of shelf.files.items };
}

impl SteadyShelf {
    /// A shelf with these files. Of two files of one name the first counts.
    pub fn new(files: Vec<(String, Vec<u8>)>) -> SteadyShelf
        ensures { result ≡ files_of files.items }
    {
        SteadyShelf { files }
    }
}

impl Shelf for SteadyShelf {
    ghost files = { λ shelf. Some shelf };

    ghost faults = { λ _. 0 };

    fn read(&mut self, alloc: Global, name: &str, limit: u64) -> Result<Vec<u8>, ShelfFault> {
        let bytes = find(&self.files, name).unwrap_or(&[]);
        if bytes.len() as u64 > limit {
            return Err(ShelfFault::TooLong);
        }
        bytes.to_vec(alloc).map_err(ShelfFault::Memory)
    }
}

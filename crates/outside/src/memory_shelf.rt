// Files in memory whose reads fail when told to.
ghost use Rattle.std.specs.Prelude.{◌≡◌, ◌↔◌, ◌⊎◌, ◌<◌, ◌≤◌, length, Contains, Some, None, IfOk, IsErrOf};
ghost use Rattle.outside.specs.Count.{Rose};
ghost use Rattle.outside.specs.MemoryShelf.{after_read};
ghost use Rattle.outside.specs.Shelf.{bytes_of, file_of, files_of};

use crate::shelf::find;
use crate::{Shelf, ShelfFault};
use std::alloc::Global;
use std::marker::Model;

/// Files in memory. A read fails where its number is among those that were told to fail, and where no
/// file has the name; the first read has number 0.
#[derive(Drop)]
pub struct MemoryShelf {
    files: Vec<(String, Vec<u8>)>,
    fails: Vec<u64>,
    reads: u64,
    faults: u64,
}

impl Model for MemoryShelf {
    ghost use Rattle.outside.specs.Shelf.{files_of};
    ghost use Rattle.outside.specs.MemoryShelf.{MemoryShelfData};

    ghost Value = { MemoryShelfData };

    ghost view = { λ shelf. record {
      files = files_of shelf.files.items;
      fails = shelf.fails.items;
      reads = shelf.reads;
      faults = shelf.faults;
    } };
}

impl MemoryShelf {
    /// A shelf with these files, whose reads of the numbers in `fails` fail. Of two files of one name
    /// the first counts.
    pub fn new(files: Vec<(String, Vec<u8>)>, fails: Vec<u64>) -> MemoryShelf
        ensures { result ≡ record {
          files = files_of files.items;
          fails = fails.items;
          reads = 0;
          faults = 0;
        } }
    {
        MemoryShelf {
            files,
            fails,
            reads: 0,
            faults: 0,
        }
    }
}

impl Shelf for MemoryShelf {
    ghost files = { λ shelf. Some shelf.files };

    ghost faults = { λ shelf. shelf.faults };

    fn read(&mut self, alloc: Global, name: &str, limit: u64) -> Result<Vec<u8>, ShelfFault>
        ensures failed { IsErrOf result ShelfFault.Failed
            ↔ (Contains self.old.fails self.old.reads ⊎ (file_of self.old.files name.now ≡ None)) }
        ensures counted { self.new ≡ after_read self.old result }
        ensures within { IfOk result (λ v. length v.items ≤ limit) }
        ensures bytes { IfOk result (λ v. v.items ≡ bytes_of self.old.files name.now) }
        ensures too_long { IsErrOf result ShelfFault.TooLong
            → limit < length (bytes_of self.old.files name.now) }
        ensures later { self.old.faults ≤ self.new.faults }
        ensures cause { IsErrOf result ShelfFault.Failed → Rose self.old.faults self.new.faults }
    {
        let fails = self.fails.contains(&self.reads);
        self.reads = self.reads.saturating_add(1);
        if !fails {
            if let Some(bytes) = find(&self.files, name) {
                if bytes.len() as u64 > limit {
                    return Err(ShelfFault::TooLong);
                }
                return bytes.to_vec(alloc).map_err(ShelfFault::Memory);
            }
        }
        self.faults = self.faults.saturating_add(1);
        Err(ShelfFault::Failed)
    }
}

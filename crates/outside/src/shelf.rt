// Named files that can be read.
ghost use Rattle.std.specs.Prelude.{◌≡◌, ℕ, ◌<◌, ◌≤◌, List, length, Option, option_map, IfOk, IfSome, IsErrOf};
ghost use Rattle.outside.specs.Count.{Rose};
ghost use Rattle.outside.specs.Shelf.{bytes_of, file_of, files_of};

use std::alloc::{AllocError, Global};
use thiserror::Error;

/// Why a read gave no bytes.
#[derive(Debug, Drop, Error)]
pub enum ShelfFault {
    /// The file isn't there or couldn't be read. The shelf's count of faults rose.
    #[error("a read failed")]
    Failed,
    /// The file has more bytes than the read was to give.
    #[error("a file is too long")]
    TooLong,
    /// There was no memory for the bytes.
    #[error("out of memory")]
    Memory(AllocError),
}

/// Named files that can be read.
pub trait Shelf {
    /// The files, where they are told: their names with their bytes, in an order.
    ghost files: { Self → Option (List (List ℕ × List ℕ)) };

    /// How often a read has failed.
    ghost faults: { Self → ℕ };

    /// Reads the file of this name, if it has at most `limit` bytes.
    ///
    /// Where the files are told and the read neither fails nor wants memory, it gives the bytes that
    /// the name stands for where they are at most `limit`, and `TooLong` where they are more. A name
    /// that no file has stands for no bytes. `Failed` comes only where the count of faults rose.
    fn read(&mut self, alloc: Global, name: &str, limit: u64) -> Result<Vec<u8>, ShelfFault>
        ensures within { IfOk result (λ v. length v.items ≤ limit) }
        ensures bytes { IfSome (files self.old) (λ fs. IfOk result (λ v. v.items ≡ bytes_of fs name.now)) }
        ensures too_long { IfSome (files self.old) (λ fs. IsErrOf result ShelfFault.TooLong
            → limit < length (bytes_of fs name.now)) }
        ensures same { files self.new ≡ files self.old }
        ensures later { faults self.old ≤ faults self.new }
        ensures cause { IsErrOf result ShelfFault.Failed → Rose (faults self.old) (faults self.new) };
}

/// The bytes of the first of these files that has this name.
pub(crate) fn find<'a>(files: &'a [(String, Vec<u8>)], name: &str) -> Option<&'a [u8]>
    ensures { option_map (λ bytes. bytes.now) result ≡ file_of (files_of files.now) name.now }
{
    for file in files {
        if file.0.as_str() == name {
            return Some(file.1.as_slice());
        }
    }
    None
}

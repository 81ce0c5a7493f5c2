// The files of the system.
ghost use Rattle.std.specs.Prelude.{◌≡◌, ◌≤◌, ◌+◌, ℕ, List, length, None, IfOk, IsErrOf};
ghost use Rattle.std.specs.Io.KnownBytes.{Consumes, IsAtEnd};

use crate::{Shelf, ShelfFault};
use std::alloc::Global;
use std::fs;
use std::io::{ErrorKind, Read};
use std::marker::Model;
use std::rt::Files;

const BLOCK: usize = 4096;

/// The files of the system, each under its path. It tells no content; in contracts it is its count of
/// faults.
#[derive(Drop)]
pub struct FileShelf<'a, R: Files> {
    rt: &'a R,
    faults: u64,
}

impl<'a, R: Files> Model for FileShelf<'a, R> {
    ghost use Rattle.std.specs.Prelude.{ℕ};

    ghost Value = { ℕ };

    ghost view = { λ shelf. shelf.faults };
}

impl<'a, R: Files> FileShelf<'a, R> {
    /// The files that this runtime reaches. No read has failed yet.
    pub fn new(rt: &'a R) -> FileShelf<'a, R>
        ensures { result ≡ 0 }
    {
        FileShelf { rt, faults: 0 }
    }
}

// Reads what is left of a file, block by block, and stops at one byte more than the limit.
fn contents<F: Read>(file: &mut F, alloc: Global, limit: u64) -> Result<Vec<u8>, ShelfFault>
    ensures within { IfOk result (λ v. length v.items ≤ limit) }
    ensures whole { IfOk result (λ v. Consumes (F.remaining file.old) (F.remaining file.new) v.items
        × IsAtEnd (F.remaining file.new)) }
    ensures too_long { IsErrOf result ShelfFault.TooLong → (read : List ℕ) × (length read ≡ limit + 1)
        × Consumes (F.remaining file.old) (F.remaining file.new) read }
{
    let mut bytes = Vec::new(alloc);
    let mut block = [0u8; BLOCK];
    for _ in 0..u64::MAX {
        let room = (limit - bytes.len() as u64).min(BLOCK as u64 - 1) as usize + 1;
        match file.read(&mut block[..room]) {
            Ok(0) => return Ok(bytes),
            Ok(count) => {
                if let Err(e) = bytes.extend_from_slice(&block[..count]) {
                    return Err(ShelfFault::Memory(e));
                }
                if bytes.len() as u64 > limit {
                    return Err(ShelfFault::TooLong);
                }
            }
            Err(e) => {
                if e.kind() != ErrorKind::Interrupted {
                    return Err(ShelfFault::Failed);
                }
            }
        }
    }
    Err(ShelfFault::Failed)
}

impl<R: Files> Shelf for FileShelf<'_, R> {
    ghost files = { λ _. None };

    ghost faults = { λ shelf. shelf };

    fn read(&mut self, alloc: Global, name: &str, limit: u64) -> Result<Vec<u8>, ShelfFault> {
        let result = match fs::open(self.rt, name) {
            Ok(mut file) => contents(&mut file, alloc, limit),
            Err(_) => Err(ShelfFault::Failed),
        };
        if let Err(ShelfFault::Failed) = result {
            self.faults = self.faults.saturating_add(1);
        }
        result
    }
}

#[cfg(test)]
mod tests {
    use super::*;
    use std::io;
    use std::test::Fail;

    const NEVER: u64 = u64::MAX;

    // A file that gives its bytes three at a time, is interrupted before each, and fails after some.
    #[derive(Drop)]
    struct Halting {
        left: u64,
        fails_at: u64,
        interrupted: bool,
    }

    impl Read for Halting {
        fn read(&mut self, buf: &mut [u8]) -> io::Result<usize> {
            self.interrupted = !self.interrupted;
            if self.interrupted {
                return Err(io::Error::from(ErrorKind::Interrupted));
            }
            if self.left == self.fails_at {
                return Err(io::Error::from(ErrorKind::Other));
            }
            let count = buf.len().min(3).min(self.left as usize);
            for byte in buf[..count].iter_mut() {
                *byte = b'x';
            }
            self.left -= count as u64;
            Ok(count)
        }
    }

    #[test]
    fn a_file_is_read_to_its_end_or_not_at_all(rt: HostRuntime) -> Result<(), Fail> {
        // the bytes that there are, those left at a failure, the limit, and how many are read
        let rows = [
            (7, NEVER, 7, Some(7)),
            (7, NEVER, 6, None),
            (7, 1, 7, None),
            (0, NEVER, 0, Some(0)),
            (9000, NEVER, u64::MAX, Some(9000)),
        ];
        for (left, fails_at, limit, want) in rows {
            let mut file = Halting {
                left,
                fails_at,
                interrupted: false,
            };
            let length = match contents(&mut file, rt.alloc(), limit) {
                Ok(bytes) => Some(bytes.len()),
                Err(_) => None,
            };
            assert_eq!(rt; length, want, "{left} bytes up to {limit}");
        }
        Ok(())
    }

    #[test]
    fn the_files_of_the_system(rt: HostRuntime) -> Result<(), Fail> {
        let name = "outside_file_shelf.txt";
        fs::write(&rt, name, "tick 0\n")?;
        let mut shelf = FileShelf::new(&rt);
        let whole = shelf.read(rt.alloc(), name, 7);
        let long = shelf.read(rt.alloc(), name, 6);
        fs::remove_file(&rt, name)?;
        let gone = shelf.read(rt.alloc(), name, 7);
        assert!(rt; matches!(&whole, Ok(bytes) if bytes.as_slice() == b"tick 0\n".as_slice()));
        assert!(rt; matches!(&long, Err(ShelfFault::TooLong)));
        assert!(rt; matches!(&gone, Err(ShelfFault::Failed)));
        Ok(())
    }
}

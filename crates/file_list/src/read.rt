// A whole list, read from its bytes.
ghost use Rattle.std.specs.Prelude.{◌≡◌, ℕ, List, IfOk};
ghost use Rattle.file_list.specs.declared.read.ListRead.TheVariants.{Ready};
ghost use Rattle.file_list.specs.FileList.{IsFileList, list_text, IsListRead};

use crate::front::Front;
use crate::list::FileList;
use std::alloc::{AllocError, Global};

/// What the bytes are: a list of files, or none.
///
/// `offset` is the length of the longest front of the bytes with which some list begins.
#[derive(Debug, Drop)]
pub enum ListRead {
    Ready(FileList),
    Broken { offset: u64 },
}

/// The list that the bytes are, or where they stop being one.
///
/// A list has 1 to 64 names, each with a line feed after it. A name has 1 to 255 bytes from 0x21 to 0x7e, and doesn't
/// begin with a dash.
///
/// # Errors
///
/// Only for want of memory.
pub fn read_list(alloc: Global, bytes: &[u8]) -> Result<ListRead, AllocError>
    ensures found { IfOk result (λ r. IsListRead bytes.now r) }
    ensures only { (names : List (List ℕ)) → IsFileList names → bytes.now ≡ list_text names
        → IfOk result (λ r. r ≡ Ready names) }
{
    let mut front = Front::new(alloc);
    for i in 0..bytes.len() {
        if !front.take(alloc, bytes[i])? {
            return Ok(ListRead::Broken { offset: i as u64 });
        }
    }
    match front.whole() {
        Some(list) => Ok(ListRead::Ready(list)),
        None => Ok(ListRead::Broken {
            offset: bytes.len() as u64,
        }),
    }
}

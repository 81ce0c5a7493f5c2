// The front of a list that was read: whole names, and the bytes of one that isn't ended yet.
ghost use Rattle.std.specs.Prelude.{
  ◌≡◌,
  ◌≤◌,
  ◌<◌,
  ◌⊎◌,
  [],
  ◌∷◌,
  ◌++◌,
  true,
  false,
  length,
  map,
  string_bytes,
  IfOk,
  OnOk,
  IfSome,
  None,
};
ghost use Rattle.file_list.specs.FileList.{IsName};
ghost use Rattle.file_list.specs.Front.{IsFront, front_text, CanFollow, IsStuck};

use crate::list::FileList;
use std::alloc::{AllocError, Global};
use std::mem::replace;

/// The most names of a list.
const MOST_NAMES: usize = 64;

/// The most bytes of a name.
const MOST_BYTES: usize = 255;

/// The names of a list so far, and the bytes of the name that isn't ended yet.
#[derive(Debug, Drop)]
pub(crate) struct Front {
    pub(crate) names: Vec<String>,
    pub(crate) name: Vec<u8>,
}

impl Front {
    /// Nothing is read yet.
    pub(crate) fn new(alloc: Global) -> Front
        ensures names { result.names.items ≡ [] }
        ensures name { result.name.items ≡ [] }
    {
        Front {
            names: Vec::new(alloc),
            name: Vec::new(alloc),
        }
    }

    // Whether a name goes on with this byte.
    fn can_follow(&self, byte: u8) -> bool
        ensures yes { result ≡ true → CanFollow (map string_bytes self.now.names.items) self.now.name.items byte }
        ensures no { result ≡ false → CanFollow (map string_bytes self.now.names.items) self.now.name.items byte → ⊥ }
    {
        if self.name.is_empty() && byte == b'-' {
            return false;
        }
        let room = self.names.len() < MOST_NAMES && self.name.len() < MOST_BYTES;
        room && 33 <= byte && byte <= 126
    }

    // Ends the name, which goes to the others.
    fn end_name(&mut self, alloc: Global) -> Result<(), AllocError>
        requires { IsName self.old.name.items }
        ensures names { OnOk result (map string_bytes self.new.names.items
            ≡ map string_bytes self.old.names.items ++ self.old.name.items ∷ []) }
        ensures name { OnOk result (self.new.name.items ≡ []) }
    {
        let bytes = replace(&mut self.name, Vec::new(alloc));
        let Ok(name) = String::from_utf8(bytes) else {
            unreachable!()
        };
        self.names.push(name)?;
        Ok(())
    }

    /// Reads one byte more, and answers whether the front goes on with it.
    pub(crate) fn take(&mut self, alloc: Global, byte: u8) -> Result<bool, AllocError>
        requires { IsFront (map string_bytes self.old.names.items) self.old.name.items }
        ensures front { IfOk result (λ on. on ≡ true
            → IsFront (map string_bytes self.new.names.items) self.new.name.items) }
        ensures text { IfOk result (λ on. on ≡ true
            → front_text (map string_bytes self.new.names.items) self.new.name.items
            ≡ front_text (map string_bytes self.old.names.items) self.old.name.items ++ byte ∷ []) }
        ensures stuck { IfOk result (λ on. on ≡ false
            → IsStuck (map string_bytes self.old.names.items) self.old.name.items byte) }
    {
        if byte == b'\n' && !self.name.is_empty() {
            self.end_name(alloc)?;
            return Ok(true);
        }
        if !self.can_follow(byte) {
            return Ok(false);
        }
        self.name.push(byte)?;
        Ok(true)
    }

    /// The list, where every name is ended and there is one at least.
    pub(crate) fn whole(self) -> Option<FileList>
        ensures list { IfSome result (λ list. (list ≡ map string_bytes self.names.items) × (1 ≤ length list)
            × (self.name.items ≡ [])) }
        ensures none { result ≡ None → (map string_bytes self.names.items ≡ []) ⊎ (1 ≤ length self.name.items) }
    {
        if self.names.is_empty() || !self.name.is_empty() {
            return None;
        }
        Some(FileList::from_vec(self.names))
    }
}

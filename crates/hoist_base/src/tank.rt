// Tanks.
ghost use Rattle.std.specs.Prelude.{◌≡◌, IfOk};

use crate::name::Name;
use std::alloc::{AllocError, Global};

/// A tank: its name, and its position on the track in ticks of travel.
#[derive(Debug, Drop)]
pub struct Tank {
    pub name: Name,
    pub at: u32,
}

impl Tank {
    /// A copy.
    pub fn copied(&self, alloc: Global) -> Result<Tank, AllocError>
        ensures { IfOk result (λ copy. copy ≡ self.now) }
    {
        let name = self.name.copied(alloc)?;
        Ok(Tank { name, at: self.at })
    }
}

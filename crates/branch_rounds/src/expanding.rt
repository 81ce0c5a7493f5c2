// The work of a round: paths of one line are expanded under one cap.
ghost use Rattle.std.specs.Prelude.{◌≡◌, []};
ghost use Rattle.path_constraints.specs.Places.{system_below};

use crate::path::Path;
use hoist_base::Line;
use longest_path::System;
use node_expand::{Expanded, Expander};
use std::alloc::{AllocError, Global};
use worker_pool::Work;

/// The expansions of paths of a line, all under the cap at which their round began. `base` is the line's system before
/// any decision. A worker's room is an expander of that line.
#[derive(Drop)]
pub(crate) struct Expanding<'a> {
    pub(crate) line: &'a Line,
    pub(crate) base: &'a System,
    pub(crate) cap: u32,
    ghost based: { base.now ≡ system_below line.now [] },
}

impl Work for Expanding<'_> {
    ghost use Rattle.std.specs.Prelude.{◌≡◌};
    ghost use Rattle.branch_rounds.specs.Kept.{CanExpand, IsShown};
    ghost use Rattle.branch_rounds.specs.ExpansionLemmas.{expansion_is_one};

    type Job = Path;

    type Out = Expanded;

    type Room = Expander;

    ghost takes = { λ work path. CanExpand work.line.now path work.cap };

    ghost answers = { λ work path x. IsShown work.line.now path work.cap x };

    ghost serves = { λ work expander. expander ≡ work.line.now };

    fn room(&self, alloc: Global) -> Result<Expander, AllocError> {
        Expander::new(alloc, self.line, self.base)
    }

    fn answer(
        &self,
        alloc: Global,
        room: &mut Expander,
        path: &Path,
    ) -> Result<Expanded, AllocError> {
        room.expand(alloc, self.line, path.as_slice(), self.cap)
    }

    ghost one = { λ work path x y can a b. expansion_is_one work.line.now path work.cap x y can.valid a.expansion
        b.expansion };
}

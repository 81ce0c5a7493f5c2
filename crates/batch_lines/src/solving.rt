// The work of a batch: each job is a line, and its answer is what is printed of it.
ghost use Rattle.std.specs.Prelude.{◌≡◌};
ghost use Rattle.batch_lines.specs.Batch.{status_of};

use crate::single::{Single, Text};
use answer_text::{Verdict, write_answer};
use hoist_base::Line;
use solve_line::solve_alone;
use std::alloc::{AllocError, Global};
use worker_pool::Work;

/// Each line is solved under this budget of splits.
#[derive(Drop)]
pub(crate) struct Solving {
    pub(crate) budget: u32,
}

/// The status of a verdict.
fn status_of(verdict: Verdict) -> u32
    ensures { result ≡ status_of verdict }
{
    match verdict {
        Verdict::Optimal => 0,
        Verdict::Nothing => 1,
        Verdict::Unfinished => 3,
    }
}

impl Work for Solving {
    ghost use Rattle.std.specs.Prelude.{◌≤◌};
    ghost use Rattle.hoist_base.specs.Valid.{IsLine};
    ghost use Rattle.batch_lines.specs.Batch.{IsSingle};
    ghost use Rattle.batch_lines.specs.OneLemmas.{single_is_one};

    type Job = Line;

    type Out = Single;

    type Room = ();

    ghost takes = { λ work _. work.budget ≤ 20000 };

    ghost answers = { λ work line single. IsLine line × IsSingle line work.budget single };

    ghost serves = { λ _ _. Unit {0} };

    fn room(&self, _alloc: Global) -> Result<(), AllocError> {
        Ok(())
    }

    fn answer(&self, alloc: Global, _room: &mut (), line: &Line) -> Result<Single, AllocError> {
        let answer = solve_alone(alloc, line, self.budget)?;
        let text = write_answer(alloc, line, &answer)?;
        Ok(Single {
            status: status_of(answer.verdict),
            text: Text::from_vec(text),
        })
    }

    ghost one = { λ work line a b small x y. single_is_one line work.budget a b x.0 small x.1 y.1 };
}

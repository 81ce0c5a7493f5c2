//! What holds of every order in which workers may take turns.

ghost use Rattle.worker_pool.specs.RoundMachine.{AnyOrder};

/// Whatever the number of jobs, of workers and their turns, each job is claimed once, and the
/// answers that are gathered at the end are those of the jobs, in order. `A` is an answer's type.
pub fn any_order<A>()
    ensures { AnyOrder A }
{}

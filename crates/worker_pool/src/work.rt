//! What workers do with one job.

ghost use Rattle.std.specs.Prelude.{◌≡◌, IfOk, OnOk};

use std::alloc::{AllocError, Global};

/// A kind of work: each job that it takes has one answer.
///
/// Each worker has a room, and lends it to every call of `answer`. What a room holds is memory that serves again: the
/// answers don't depend on it.
pub trait Work: Sync {
    /// What is answered.
    type Job: Sync;

    /// What an answer is.
    type Out: Send + Drop;

    /// What a worker keeps between its jobs.
    type Room: Send + Drop;

    /// Which jobs it takes.
    ghost takes: { Self → Self.Job → Type 0 };

    /// Which values are the answer of a job.
    ghost answers: { Self → Self.Job → Self.Out → Type 0 };

    /// Which rooms serve.
    ghost serves: { Self → Self.Room → Type 0 };

    /// A room for one worker, or want of memory.
    fn room(&self, alloc: Global) -> Result<Self::Room, AllocError>
        ensures { IfOk result (λ room. serves self.now room) };

    /// The answer of a job, or want of memory. After an answer the room serves again.
    fn answer(
        &self,
        alloc: Global,
        room: &mut Self::Room,
        job: &Self::Job,
    ) -> Result<Self::Out, AllocError>
        requires serves { serves self.now room.old }
        requires takes { takes self.now job.now }
        ensures answer { IfOk result (λ out. answers self.now job.now out) }
        ensures serves { OnOk result (serves self.now room.new) };

    /// A job that is taken has no two answers.
    ghost one: { (work : Self) (job : Self.Job) (a b : Self.Out) → takes work job
        → answers work job a → answers work job b → a ≡ b };
}

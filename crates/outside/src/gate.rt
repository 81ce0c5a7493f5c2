// A gate before each job.

/// What each job passes before it is worked on. A pass returns, and no answer depends on it, so a gate
/// can hold jobs back until several have come, or note which came.
pub trait Gate: Sync {
    /// Lets the job of this number pass.
    fn pass(&self, job: u64);
}

/// A gate that lets every job pass at once.
pub struct OpenGate;

impl Gate for OpenGate {
    fn pass(&self, _job: u64) {}
}

// Whoever watches a run.
use job_ends::Done;

/// Whoever is told how far a run is. A run does the same whatever this does.
pub trait Progress {
    /// One of so many jobs is done, and this is its record.
    fn done(&mut self, jobs: usize, record: &Done);
}

/// Nobody, for a run that isn't watched.
#[derive(Clone, Copy)]
pub struct Unwatched;

impl Progress for Unwatched {
    fn done(&mut self, _jobs: usize, _record: &Done) {}
}

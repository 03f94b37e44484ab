// The line on standard error that says how far a run is.
use crate::told::NAME;
use pump_run::{Done, Progress, Way};
use std::io::{IsTerminal, Stderr};
use std::rt::Clock;
use std::time::{Duration, Instant};

// The least time between two writes of the line, in milliseconds.
const PAUSE: u64 = 100;

/// A line that is written over itself on standard error, at most ten times a second and as the last job is done: how many jobs
/// are done of all, how many of them were remote and how many local, and the seconds since the run began. Where standard error
/// is no terminal, or the host has no clock, there is none.
#[derive(Drop)]
pub struct ProgressLine<R: Eprint + Clock + Drop> {
    rt: R,
    begun: Option<Instant>,
    next: Duration,
    done: u64,
    remote: u64,
    local: u64,
}

impl<R: Eprint + Clock + Drop> ProgressLine<R> {
    /// The line of a run that begins now.
    pub fn new(rt: R, stderr: &Stderr) -> ProgressLine<R> {
        let begun = if stderr.is_terminal() {
            Instant::now(&rt).ok()
        } else {
            None
        };
        ProgressLine {
            rt,
            begun,
            next: Duration::ZERO,
            done: 0,
            remote: 0,
            local: 0,
        }
    }

    /// Ends the line, if it was written, so that what follows has lines of its own.
    pub fn end(self) {
        if self.next > Duration::ZERO {
            let _ = eprintln!(self.rt);
        }
    }

    fn write(&self, jobs: usize, spent: Duration) {
        let ProgressLine {
            rt,
            done,
            remote,
            local,
            ..
        } = self;
        let seconds = spent.as_secs();
        let _ = eprint!(rt;
            "\r{NAME}: {done} of {jobs} jobs done, {remote} remote, {local} local, {seconds} s"
        );
    }
}

impl<R: Eprint + Clock + Drop> Progress for ProgressLine<R> {
    fn done(&mut self, jobs: usize, record: &Done) {
        self.done = self.done.saturating_add(1);
        match record.way {
            Way::Remote => self.remote = self.remote.saturating_add(1),
            Way::Local(_) => self.local = self.local.saturating_add(1),
            Way::Broken => {}
        }
        let Some(begun) = self.begun else {
            return;
        };
        let Ok(spent) = begun.elapsed(&self.rt) else {
            return;
        };
        if spent >= self.next || self.done == jobs as u64 {
            self.write(jobs, spent);
            self.next = spent.saturating_add(Duration::from_millis(PAUSE));
        }
    }
}

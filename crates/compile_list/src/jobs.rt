// The jobs of the lines so far.
ghost use Rattle.std.specs.Prelude.{◌≡◌, ◌<◌, ◌≤◌, ◌⊎◌, ℕ, [], length, IfOk, IfErr, OnOk, Ok, Err};
ghost use Rattle.std.specs.List.{AllByRecursion};
ghost use Rattle.base_types.specs.Limits.{job_limit};
ghost use Rattle.job_words.specs.Words.{IsJob};
ghost use Rattle.compile_list.specs.Listed.{is_comment_line, with_line, with_read};
ghost use Rattle.compile_list.specs.parts.Steps.{HasOutputs};

use crate::line::words_of_line;
use crate::refused::ListWhy;
use base_types::limits::JOB_LIMIT;
use base_types::{Bytes, List};
use job_words::{Job, WordError, first_words_decide, read_words};
use std::alloc::Global;
use std::collections::HashSet;

// Jobs, and the names of their outputs.
#[derive(Drop)]
pub struct ReadJobs {
    pub jobs: List<Job>,
    pub outputs: HashSet<Bytes>,
}

impl ReadJobs {
    pub fn new(alloc: Global) -> ReadJobs
        ensures jobs { result.jobs ≡ [] }
        ensures outputs { HasOutputs result.outputs result.jobs }
    {
        ReadJobs {
            jobs: List::new(alloc),
            outputs: HashSet::new(alloc),
        }
    }

    // Adds the job of a line, if it has one.
    pub fn add_line(&mut self, alloc: Global, line: &[u8]) -> Result<(), ListWhy>
        requires outputs { HasOutputs self.old.outputs self.old.jobs }
        requires each { AllByRecursion IsJob self.old.jobs }
        requires few { length self.old.jobs ≤ job_limit }
        ensures jobs { OnOk result (with_line self.old.jobs line.now ≡ Ok self.new.jobs) }
        ensures outputs { OnOk result (HasOutputs self.new.outputs self.new.jobs) }
        ensures each { OnOk result (AllByRecursion IsJob self.new.jobs) }
        ensures few { OnOk result (length self.new.jobs ≤ job_limit) }
        ensures why { IfErr result (λ why. (why ≡ ListWhy.Memory) ⊎ (with_line self.old.jobs line.now ≡ Err why)) }
    {
        if begins_comment(line) {
            return Ok(());
        }
        let words = words_of_line(alloc, line)?;
        let [cwd, words @ ..] = words.as_slice() else {
            return Ok(());
        };
        if self.jobs.len() >= JOB_LIMIT {
            return Err(ListWhy::Limit);
        }
        first_words_decide();
        match read_words(alloc, cwd.as_slice(), words) {
            Ok(job) => self.add_job(alloc, job),
            Err(WordError::Memory) => Err(ListWhy::Memory),
            Err(why) => Err(ListWhy::Words(why)),
        }
    }

    // Adds a job whose output no earlier job has.
    fn add_job(&mut self, alloc: Global, job: Job) -> Result<(), ListWhy>
        requires outputs { HasOutputs self.old.outputs self.old.jobs }
        requires each { AllByRecursion IsJob self.old.jobs }
        requires few { length self.old.jobs < job_limit }
        ensures jobs { OnOk result (with_read self.old.jobs (Ok job) ≡ Ok self.new.jobs) }
        ensures outputs { OnOk result (HasOutputs self.new.outputs self.new.jobs) }
        ensures each { OnOk result (AllByRecursion IsJob self.new.jobs) }
        ensures few { OnOk result (length self.new.jobs ≤ job_limit) }
        ensures why { IfErr result (λ why. (why ≡ ListWhy.Memory) ⊎ (with_read self.old.jobs (Ok job) ≡ Err why)) }
    {
        job.is_reading();
        let Ok(output) = Bytes::copy_of(alloc, job.output()) else {
            return Err(ListWhy::Memory);
        };
        match self.outputs.insert(output) {
            Ok(true) => (),
            Ok(false) => return Err(ListWhy::Output),
            Err(_) => return Err(ListWhy::Memory),
        }
        if let Err(_) = self.jobs.push(job) {
            return Err(ListWhy::Memory);
        }
        Ok(())
    }
}

fn begins_comment(line: &[u8]) -> bool
    ensures { result ≡ is_comment_line line.now }
{
    match line {
        [first, ..] => *first == b'#',
        [] => false,
    }
}

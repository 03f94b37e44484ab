// A job.
ghost use Rattle.std.specs.Prelude.{◌≡◌, IfOk};
ghost use Rattle.std.specs.Cmp.{partial_equiv_from_equiv};
ghost use Rattle.std.proofs.Common.{ap};
ghost use Rattle.job_words.specs.JobOf.{job_of_parts};
ghost use Rattle.job_words.specs.Keys.{is_same_job, is_same_job-Decides, same_job_equiv, job_writes};
ghost use Rattle.job_words.specs.Words.{IsJob};

use crate::MacroWord;
use base_types::{Bytes, List};
use search_path::Setup;
use std::alloc::{AllocError, Global};
use std::hash::{Hash, Hasher};
use std::marker::Model;
use std::sync::Arc;

/// A job: what one compile command asks of a preprocessor. It is the reading of its own working directory and words.
/// Copies share what they hold.
#[derive(Drop)]
pub struct Job {
    parts: Arc<Parts, Global>,
}

// What a job and its copies hold.
#[derive(PartialEq, Eq, Drop)]
pub struct Parts {
    pub words: List<Bytes>,
    pub source: Bytes,
    pub setup: Setup,
    pub macros: List<MacroWord>,
    pub forced: List<Bytes>,
    pub output: Bytes,
}

impl Model for Job {
    ghost use Rattle.std.specs.Arc.{arc_value};
    ghost use Rattle.job_words.specs.JobOf.{JobData, job_of_parts};
    ghost use Rattle.job_words.specs.Words.{IsJob};

    ghost Value = { JobData };

    ghost view = { λ j. job_of_parts (arc_value j.parts) };

    ghost invariant = { λ j. IsJob (job_of_parts (arc_value j.parts)) };
}

impl Job {
    // A job of these parts.
    pub(crate) fn new(alloc: Global, parts: Parts) -> Result<Job, AllocError>
        requires { IsJob (job_of_parts parts) }
        ensures { IfOk result (λ job. job ≡ job_of_parts parts) }
    {
        Ok(Job {
            parts: Arc::new(alloc, parts)?,
        })
    }

    /// A copy, which takes no memory; it is refused only where there are 2^63 of them.
    pub fn copy(&self) -> Result<Job, AllocError>
        ensures { IfOk result (λ copy. copy ≡ self.now) }
    {
        Ok(Job {
            parts: Arc::try_clone(&self.parts)?,
        })
    }

    /// A law, which takes no work: the job is the reading of its own working directory and words.
    pub fn is_reading(&self)
        ensures { IsJob self.now }
    {
        let _ = &self.parts;
    }

    /// The compile words, the source's name among them.
    pub fn words(&self) -> &[Bytes]
        ensures { result.now ≡ self.now.words }
    {
        self.parts.words.as_slice()
    }

    /// The source's name, as it was written.
    pub fn source(&self) -> &[u8]
        ensures { result.now ≡ self.now.source }
    {
        self.parts.source.as_slice()
    }

    /// What the words say of searches, the working directory among it.
    pub fn setup(&self) -> &Setup
        ensures { result.now ≡ self.now.setup }
    {
        &self.parts.setup
    }

    /// What the `-D` and `-U` of the words say, in the order of the words; a name may stand in several. All of them come
    /// before the files that are included in front of the source.
    pub fn macros(&self) -> &[MacroWord]
        ensures { result.now ≡ self.now.macros }
    {
        self.parts.macros.as_slice()
    }

    /// The names of the files that are included in front of the source, in order.
    pub fn forced(&self) -> &[Bytes]
        ensures { result.now ≡ self.now.forced }
    {
        self.parts.forced.as_slice()
    }

    /// The name under which the text is put.
    pub fn output(&self) -> &[u8]
        ensures { result.now ≡ self.now.output }
    {
        self.parts.output.as_slice()
    }
}

impl PartialEq for Job {
    ghost eq = { is_same_job };

    ghost laws = { partial_equiv_from_equiv same_job_equiv };

    fn eq(&self, other: &Job) -> bool {
        self.parts == other.parts
    }
}

impl Eq for Job {
    ghost laws = { same_job_equiv };
}

impl Hash for Job {
    ghost hash_input = { job_writes };

    ghost respects_eq = { λ x y same. ap job_writes ((is_same_job-Decides x y).0 same) };

    fn hash<H: Hasher>(&self, state: &mut H) {
        self.parts.words.hash(state);
        self.parts.source.hash(state);
        self.parts.setup.hash(state);
        self.parts.forced.hash(state);
        self.parts.output.hash(state);
    }
}

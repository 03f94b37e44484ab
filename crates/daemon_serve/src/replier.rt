// What answers whole requests.
ghost use Rattle.std.specs.Prelude.{IfOk, IsTrue, Some};
ghost use Rattle.tree_model.specs.Entries.{Entries, bodies_fit, makes_tree};
ghost use Rattle.job_words.specs.declared.job.Job.{Job};
ghost use Rattle.job_frames.specs.declared.answer.Answer.{Answer};
ghost use Rattle.job_frames.specs.Daemon.{IsAnswerTo};

use base_types::{Bytes, List};
use job_words::Job;
use std::alloc::{AllocError, Global};
use tree_model::{CanonPath, Entry};

/// What answers whole requests.
pub trait Replier {
    /// Which answers it may give to a job and its entries.
    ghost may: { Job → Entries → Answer → Type 0 };

    /// The spelled reply to a job and its entries. An error is want of memory, which is replied by the refusal of reason 1.
    fn reply(
        &mut self,
        alloc: Global,
        job: Job,
        entries: List<(CanonPath, Entry)>,
    ) -> Result<Bytes, AllocError>
        requires made { IsTrue (makes_tree entries) }
        requires bodies { IsTrue (bodies_fit entries) }
        ensures { IfOk result (λ reply. IsAnswerTo may (Some job) entries reply) };
}

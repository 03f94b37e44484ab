// The answer that preprocessing gives.
ghost use Rattle.daemon_answers.specs.Answers.{Answers};

use crate::replier::Replier;
use crate::replying::{let_go, preprocessed};
use base_types::{Bytes, List};
use job_words::Job;
use std::alloc::{AllocError, Global};
use tree_model::{CanonPath, Entry};

// Answers a request by preprocessing its job over the tree of its entries alone; `last` says whether the process ends behind it.
#[derive(Drop)]
pub(crate) struct Preprocessing {
    pub(crate) last: bool,
}

impl Replier for Preprocessing {
    ghost may = { Answers };

    fn reply(
        &mut self,
        alloc: Global,
        job: Job,
        entries: List<(CanonPath, Entry)>,
    ) -> Result<Bytes, AllocError> {
        let reply = preprocessed(alloc, &job, entries, self.last);
        let_go(job, self.last);
        reply.map_err(|_| AllocError)
    }
}

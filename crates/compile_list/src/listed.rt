// The jobs that the list gives.
ghost use Rattle.compile_list.specs.parts.Steps.{ListGives};

use crate::bytes::{ListStop, read_all};
use crate::lists::{long_lists_are_refused, read_list};
use crate::refused::{ListError, ListWhy};
use base_types::List;
use base_types::limits::LIST_LIMIT;
use io_edges::Source;
use job_words::Job;
use std::alloc::Global;

/// Why a list gives no jobs.
#[derive(Clone, Copy, Debug, PartialEq, Eq, Drop)]
pub enum NoJobs {
    /// The source failed, and its count of faults rose in this call.
    Fault,
    /// There was no memory for the list or its jobs.
    Memory,
    /// The list has more bytes than its limit, or one of its lines is refused.
    Refused(ListError),
}

/// Reads the list to its end, and answers its jobs in the order of their lines.
pub fn listed_jobs<S: Source>(alloc: Global, list: &mut S) -> Result<List<Job>, NoJobs>
    ensures { ListGives (S.left list.old) (S.left list.new) (S.faults list.old) (S.faults list.new) result }
{
    long_lists_are_refused();
    let read = match read_all(alloc, list) {
        Ok(read) => read,
        Err(ListStop::Fault) => return Err(NoJobs::Fault),
        Err(ListStop::Memory) => return Err(NoJobs::Memory),
    };
    if !read.ended || read.bytes.len() > LIST_LIMIT {
        return Err(NoJobs::Refused(ListError {
            line: 0,
            why: ListWhy::Limit,
        }));
    }
    match read_list(alloc, read.bytes.as_slice()) {
        Ok(jobs) => Ok(jobs),
        Err(
            ListError {
                why: ListWhy::Memory,
                ..
            },
        ) => Err(NoJobs::Memory),
        Err(error) => Err(NoJobs::Refused(error)),
    }
}

// The jobs of a list.
ghost use Rattle.std.specs.Prelude.{◌≡◌, ◌<◌, ◌≤◌, ◌++◌, ◌⊎◌, ℕ, List, length, IfOk, IfErr, Ok, Err};
ghost use Rattle.std.specs.List.{AllByRecursion};
ghost use Rattle.base_types.specs.Limits.{job_limit, list_limit};
ghost use Rattle.job_words.specs.Words.{IsJob};
ghost use Rattle.compile_list.specs.Listed.{jobs_of, too_long};

use crate::jobs::ReadJobs;
use crate::refused::{ListError, ListWhy};
use base_types::List;
use base_types::limits::LIST_LIMIT;
use bstr::ByteSlice;
use job_words::Job;
use std::alloc::Global;

/// The jobs of a list, in the order of their lines, or the first line that is refused and why. Its lines end with `\n` or `\r\n`,
/// which the last may lack. A line is a working directory and the words of a compile command, between spaces and tabs; a `\`
/// and the byte behind it stand for that byte. A line that begins with `#`, and one without words, is passed over. Time is
/// proportional to the bytes of the list, as far as the outputs' hashes differ, and memory to those of its jobs and of its longest
/// word.
#[tactic(auto, unfolding(crate::specs::Listed::jobs_of))]
pub fn read_list(alloc: Global, bytes: &[u8]) -> Result<List<Job>, ListError>
    ensures jobs { IfOk result (λ jobs. jobs_of bytes.now ≡ Ok jobs) }
    ensures each { IfOk result (λ jobs. AllByRecursion IsJob jobs) }
    ensures few { IfOk result (λ jobs. length jobs ≤ job_limit) }
    ensures why { IfErr result (λ error. (error.why ≡ ListWhy.Memory) ⊎ (jobs_of bytes.now ≡ Err error)) }
{
    if bytes.len() > LIST_LIMIT {
        return Err(ListError {
            line: 0,
            why: ListWhy::Limit,
        });
    }
    let mut read = ReadJobs::new(alloc);
    let mut number = 0u32;
    for line in bytes.lines() {
        number += 1;
        if let Err(why) = read.add_line(alloc, line) {
            return Err(ListError { line: number, why });
        }
    }
    Ok(read.jobs)
}

/// A law, which takes no work: a list of more bytes than the limit is refused as a whole, whatever follows.
pub fn long_lists_are_refused()
    ensures { (bytes more : List ℕ) → list_limit < length bytes → jobs_of (bytes ++ more) ≡ Err too_long }
{}

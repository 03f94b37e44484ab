// Jobs as keys of tables.
use crate::notation::words_of;
use job_words::{Job, read_words};
use std::alloc::Global;
use std::collections::HashSet;
use std::process::Abort;

fn job(rt: &impl Abort, alloc: Global, line: &str) -> Job {
    let words = words_of(rt, alloc, line);
    read_words(alloc, b"/w", words.as_slice()).expect(rt, "words of a job")
}

// A job joins those that are known, where this one isn't among them.
fn joins(rt: &impl Abort, known: &mut HashSet<Job>, job: Job) -> bool {
    known.insert(job).expect(rt, "memory for a job")
}

#[test]
fn jobs_of_the_same_words_are_one_key(rt: HostRuntime) {
    let mut known = HashSet::new(rt.alloc());
    for (line, is_new) in [("a.c -I x", true), ("a.c -I x", false), ("-I x a.c", true)] {
        let job = job(&rt, rt.alloc(), line);
        assert!(&rt; joins(&rt, &mut known, job) == is_new, "{line}");
    }
}

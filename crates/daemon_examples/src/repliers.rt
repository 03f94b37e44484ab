// Requests that something else than preprocessing answers.
use crate::served::{REQUEST, check_reply};
use base_types::{Bytes, List};
use daemon_serve::{PieceSource, Replier, Served, serve_exactly};
use io_edges::MemSink;
use job_words::Job;
use std::alloc::{AllocError, Global};
use tree_model::{CanonPath, Entry};

// Finds no memory for any answer.
#[derive(Drop)]
struct Starved;

impl Replier for Starved {
    ghost may = { λ job entries answer. ⊥ };

    fn reply(
        &mut self,
        _alloc: Global,
        _job: Job,
        _entries: List<(CanonPath, Entry)>,
    ) -> Result<Bytes, AllocError> {
        Err(AllocError)
    }
}

#[test]
fn want_of_memory_is_replied_whole(rt: HostRuntime) {
    let alloc = rt.alloc();
    let mut source = PieceSource::new(REQUEST.as_bytes(), Vec::new(alloc));
    let mut sink = MemSink::new(alloc, Vec::new(alloc));
    let ended = serve_exactly(alloc, &mut Starved, &mut source, &mut sink);
    let starved = matches!(ended, Ok(Served::Memory));
    assert!(rt; starved, "serving ends otherwise than for want of memory");
    check_reply(&rt, sink.bytes(), "RFSE00000001");
}

// A daemon that is started for one request.
ghost use Rattle.std.specs.Prelude.{◌≡◌, map};
ghost use Rattle.daemon_serve.specs.declared.serving.Served.{Served};
ghost use Rattle.daemon_answers.specs.Answers.{Answers};
ghost use Rattle.daemon_serve.specs.Serving.{IsServed, serve_of, status_of};

use crate::preprocessing::Preprocessing;
use crate::serving::{Served, serve_with};
use io_edges::{Sink, Source};
use std::alloc::Global;

/// What a daemon's words ask for. `Inetd`: one request from standard input, and one reply to standard output.
#[derive(Clone, Copy, Debug, PartialEq, Eq, Drop)]
pub enum Serve {
    Inetd,
}

/// What the words of a daemon ask for; None exactly where they aren't `--inetd` alone.
pub fn daemon_words(words: &[&str]) -> Option<Serve>
    ensures { result ≡ serve_of (map (λ word. word.now) words.now) }
{
    if words.len() != 1 {
        return None;
    }
    if words[0] == "--inetd" {
        Some(Serve::Inetd)
    } else {
        None
    }
}

/// Serves one request, and answers the exit status that tells how it ended: 0 replied, 1 refused, 3 the read failed, 4 the
/// write failed, 5 out of memory. It is for a process that ends then: what was read of the entries isn't given back.
pub fn inetd<S: Source, K: Sink>(alloc: Global, source: &mut S, sink: &mut K) -> u8
    ensures { (served : Served) × IsServed Answers (S.left source.old) (S.left source.new) (S.Source.faults source.old) (S.Source.faults source.new) (K.held sink.old) (K.held sink.new) (K.Sink.faults sink.old) (K.Sink.faults sink.new) served × (result ≡ status_of served) }
{
    status(serve_with(alloc, &mut Preprocessing { last: true }, source, sink))
}

fn status(served: Served) -> u8
    ensures { result ≡ status_of served }
{
    match served {
        Served::Replied => 0,
        Served::Refused(_) => 1,
        Served::ReadFault => 3,
        Served::WriteFault => 4,
        Served::Memory => 5,
    }
}

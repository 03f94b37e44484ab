//! The daemon's program: one request on standard input, one reply on standard output.
#![tactic(auto)]

use command_line::{ended, keep_blocks, show, words_of, wrong_words};
use daemon_serve::{Serve, daemon_words, inetd};
use io_edges::{StdSink, StdSource};
use std::process::ExitCode;
use std::{env, io};

const HELP: &str = "usage: pumpd --inetd < REQUEST > REPLY

REQUEST is one request: a working directory, the words of a compile command, and
the files that it may include, as frames. Of its source the daemon does what
`cc -E` would, over these files alone, and writes one REPLY: a text, a
diagnostic, or a refusal. It reads no further than the piece with the request's
last byte, and looks at no file of the host. It listens at no port so far.

status: 0 a text or a diagnostic, 1 a refusal, 2 wrong words and no reply, 3 the
read failed and no reply, 4 the write failed, 5 out of memory; wrong words have
a line on standard error";

fn main(rt: HostRuntime) -> ExitCode {
    let answer = answer(&rt);
    ended(&rt, "pumpd", answer)
}

fn answer(rt: &HostRuntime) -> io::Result<ExitCode> {
    let alloc = rt.alloc();
    let arguments = env::args(rt)?.collect(alloc)?;
    let words = words_of(alloc, &arguments)?;
    obey(rt, words.as_slice())
}

// Does what the words ask for, and answers the status.
fn obey(rt: &HostRuntime, words: &[&str]) -> io::Result<ExitCode> {
    match words {
        ["--help"] => show(rt, HELP),
        ["--version"] => show(rt, "pumpd 0.1.0"),
        words => match daemon_words(words) {
            None => Ok(wrong_words(rt, "pumpd")),
            Some(Serve::Inetd) => serve_one(rt),
        },
    }
}

// Serves one request from the host's input into its output.
fn serve_one(rt: &HostRuntime) -> io::Result<ExitCode> {
    keep_blocks(rt.alloc());
    let mut source = StdSource::new(rt);
    let mut sink = StdSink::new(rt.clone()?);
    Ok(ExitCode::from(inetd(rt.alloc(), &mut source, &mut sink)))
}

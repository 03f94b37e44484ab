// The steps of a job at its client, each by itself.
ghost use Rattle.std.specs.Prelude.{◌≡◌, []};
ghost use Rattle.io_edges.specs.Talk.{EachAnswered};

use crate::example::{MemEnd, check, check_put, check_text, end_of};
use crate::header::{FILES, RECEIVED, SENT, TEXT};
use base_types::Bytes;
use build_clients::{
    Cause, Done, End, JobOutcome, Prepared, Replied, Way, ask_host, conclude, do_job, do_locally,
    exchange, prepare, put_text,
};
use io_edges::{Host, LinkState, Outs, Wire};
use job_ends::Reply;
use job_words::{Job, read_words};
use std::alloc::{AllocError, Global};
use std::process::Abort;
use std::test::Fail;
use tree_model::Tree;

// A client: its host, and the job of `a.c` in `/w`.
#[derive(Drop)]
struct Client {
    host: Host,
    job: Job,
}

fn a_client(alloc: Global) -> Result<Client, Fail> {
    let host = a_host(alloc)?;
    let job = a_job(alloc)?;
    Ok(Client { host, job })
}

fn a_job(alloc: Global) -> Result<Job, Fail> {
    let words = [Bytes::copy_of(alloc, b"a.c")?];
    read_words(alloc, b"/w", &words).map_err(Fail::from)
}

fn a_host(alloc: Global) -> Result<Host, AllocError> {
    Ok(Host {
        name: Bytes::copy_of(alloc, b"daemon")?,
        port: 3632,
        limit: 1,
    })
}

// A step of a job.
#[derive(Clone, Copy, Drop)]
enum Step {
    Ask,
    Put,
    WorkLocally,
    Conclude,
    WorkRemotely,
}

const STEPS: [Step; 5] = [
    Step::Ask,
    Step::Put,
    Step::WorkLocally,
    Step::Conclude,
    Step::WorkRemotely,
];

#[test]
fn each_step_of_a_job(rt: HostRuntime) -> Result<(), Fail> {
    for step in &STEPS {
        check_step(&rt, rt.alloc(), *step)?;
    }
    Ok(())
}

// Takes a step at a client and an end of its own.
fn check_step<R: Abort>(rt: &R, alloc: Global, step: Step) -> Result<(), Fail> {
    let client = a_client(alloc)?;
    check_step_of(rt, alloc, &client, step)
}

fn check_step_of<R: Abort>(rt: &R, alloc: Global, client: &Client, step: Step) -> Result<(), Fail> {
    let mut end = Box::new(alloc, end_of(alloc, &FILES)?)?;
    take_step(rt, alloc, client, &mut *end, step)
}

fn take_step<R: Abort>(
    rt: &R,
    alloc: Global,
    client: &Client,
    end: &mut MemEnd,
    step: Step,
) -> Result<(), Fail>
    requires closed { end.old.wire.state ≡ LinkState.Closed }
    requires silent { end.old.wire.talk ≡ [] }
{
    match step {
        Step::Ask => ask(rt, alloc, client, end),
        Step::Put => put(rt, alloc, client, end)?,
        Step::WorkLocally => work_locally(rt, alloc, client, end),
        Step::Conclude => conclude_all(rt, alloc, client, end)?,
        Step::WorkRemotely => work_remotely(rt, alloc, client, end),
    }
    Ok(())
}

// The client's request is prepared, and a host answers it.
fn ask<R: Abort>(rt: &R, alloc: Global, client: &Client, end: &mut MemEnd)
    requires closed { end.old.wire.state ≡ LinkState.Closed }
    requires silent { end.old.wire.talk ≡ [] }
{
    match prepare(alloc, end, 0, &client.job) {
        Prepared::Request(request) => ask_with(rt, alloc, end, &client.host, request.as_slice()),
        _ => rt.panic("ask: the analysis was refused"),
    }
}

// The request is the one that is wanted, the host gives the reply that is wanted, and the client finds the text in it.
fn ask_with<T: Tree, W: Wire, O: Outs, R: Abort>(
    rt: &R,
    alloc: Global,
    end: &mut End<T, W, O>,
    host: &Host,
    request: &[u8],
)
    requires closed { W.state end.old.wire ≡ LinkState.Closed }
    requires answered { EachAnswered W.peer (W.talk end.old.wire) }
{
    check_text(rt, "the request", request, SENT);
    check_exchange(rt, alloc, &mut end.wire, host, request);
    check_replied(rt, &ask_host(alloc, end, host, request));
}

fn check_replied<R: Abort>(rt: &R, replied: &Replied) {
    match replied {
        Replied::Text(text) => check_text(rt, "ask", text.as_slice(), TEXT),
        _ => rt.panic("ask: the host gave no text"),
    }
}

fn check_exchange<W: Wire, R: Abort>(
    rt: &R,
    alloc: Global,
    wire: &mut W,
    host: &Host,
    request: &[u8],
)
    requires closed { W.state wire.old ≡ LinkState.Closed }
    requires answered { EachAnswered W.peer (W.talk wire.old) }
    ensures closed { W.state wire.new ≡ LinkState.Closed }
    ensures answered { EachAnswered W.peer (W.talk wire.new) }
{
    match exchange(alloc, wire, host, request) {
        Ok(reply) => check_reply(rt, &reply),
        Err(_) => rt.panic("exchange: the link failed"),
    }
}

fn check_reply<R: Abort>(rt: &R, reply: &Reply) {
    check_text(rt, "exchange", reply.bytes.as_slice(), RECEIVED);
    check(rt, reply.ended, "exchange", "the end of the reply");
}

fn put<R: Abort>(
    rt: &R,
    alloc: Global,
    client: &Client,
    end: &mut MemEnd,
) -> Result<(), AllocError> {
    let text = Bytes::copy_of(alloc, b"text")?;
    let outcome = put_text(end, &client.job, text);
    check_outcome(rt, "put", &outcome, 4);
    check_put(rt, "put", &end.outs, "a.i", "text");
    Ok(())
}

fn work_locally<R: Abort>(rt: &R, alloc: Global, client: &Client, end: &mut MemEnd) {
    let outcome = do_locally(alloc, end, &client.job);
    check_outcome(rt, "work locally", &outcome, 57);
    check_put(rt, "work locally", &end.outs, "a.i", TEXT);
}

// A failed link, a text and a diagnostic are concluded, one after the other.
fn conclude_all<R: Abort>(
    rt: &R,
    alloc: Global,
    client: &Client,
    end: &mut MemEnd,
) -> Result<(), AllocError> {
    let failed = Replied::Failed(Cause::Link);
    conclude_by(rt, alloc, client, end, failed, 57, Way::Local(Cause::Link));
    let text = Replied::Text(Bytes::copy_of(alloc, b"text")?);
    conclude_by(rt, alloc, client, end, text, 4, Way::Remote);
    conclude_by_words(rt, alloc, client, end, Bytes::copy_of(alloc, b"words")?);
    Ok(())
}

fn conclude_by<R: Abort>(
    rt: &R,
    alloc: Global,
    client: &Client,
    end: &mut MemEnd,
    replied: Replied,
    len: u64,
    way: Way,
) {
    let done = conclude(alloc, end, 2, 5, &client.job, replied);
    check_done(rt, "conclude", &done, len, way);
}

fn conclude_by_words<R: Abort>(
    rt: &R,
    alloc: Global,
    client: &Client,
    end: &mut MemEnd,
    words: Bytes,
) {
    let diagnostic = Replied::Diag(words);
    let done = conclude(alloc, end, 2, 5, &client.job, diagnostic);
    check_words(rt, &done.outcome, "words");
}

fn check_words<R: Abort>(rt: &R, outcome: &JobOutcome, words: &str) {
    match outcome {
        JobOutcome::Diag(bytes) => check_text(rt, "conclude", bytes.as_slice(), words),
        _ => rt.panic("conclude: the diagnostic was lost"),
    }
}

fn work_remotely<R: Abort>(rt: &R, alloc: Global, client: &Client, end: &mut MemEnd)
    requires closed { end.old.wire.state ≡ LinkState.Closed }
    requires silent { end.old.wire.talk ≡ [] }
{
    let done = do_job(alloc, end, 0, 2, 5, &client.job, &client.host);
    check_done(rt, "work remotely", &done, 57, Way::Remote);
    check_put(rt, "work remotely", &end.outs, "a.i", TEXT);
}

fn check_outcome<R: Abort>(rt: &R, step: &str, outcome: &JobOutcome, len: u64) {
    match outcome {
        JobOutcome::Text(n) => check(rt, *n == len, step, "the length of the text"),
        _ => check(rt, false, step, "no text was put"),
    }
}

// The record of the job of this client and number says that a text of so many bytes was put.
fn check_done<R: Abort>(rt: &R, step: &str, done: &Done, len: u64, way: Way) {
    check_outcome(rt, step, &done.outcome, len);
    check(rt, done.way == way, step, "the way");
    check(rt, done.client == 2, step, "the client");
    check(rt, done.job == 5, step, "the number of the job");
}

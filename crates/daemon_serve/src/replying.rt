// Putting one reply into a sink.
ghost use Rattle.std.specs.Prelude.{◌≡◌, IfOk, IfSome, IsTrue, Some};
ghost use Rattle.tree_model.specs.Entries.{bodies_fit, makes_tree};
ghost use Rattle.job_frames.specs.declared.answer.Answer.TheVariants.{Refused};
ghost use Rattle.job_frames.specs.Daemon.{IsAnswerTo};
ghost use Rattle.job_frames.specs.Outcomes.{number_of};
ghost use Rattle.job_frames.specs.Spelling.{reply_bytes};
ghost use Rattle.daemon_answers.specs.Answers.{Answers};
ghost use Rattle.daemon_cpp.specs.Prep.{outcome_over, OutcomeFits};
ghost use Rattle.daemon_serve.specs.parts.Parts.{refusal_served, AnswersBy, OnlyReply, IsReplyPut};

use crate::replier::Replier;
use crate::serving::Served;
use base_types::{Bytes, List};
use daemon_answers::answer_of;
use daemon_cpp::{CppError, Outcome, preprocess, preprocess_last};
use io_edges::{Sink, WriteFault};
use job_frames::{FrameError, write_reply};
use job_words::Job;
use mirror_tree::Mirror;
use std::alloc::Global;
use std::mem::forget;
use tree_model::{CanonPath, Entry, Tree};

// Puts the reply to a request.
pub(crate) fn reply_to<K: Sink, R: Replier>(
    alloc: Global,
    replier: &mut R,
    sink: &mut K,
    job: Job,
    entries: List<(CanonPath, Entry)>,
) -> Result<Served, WriteFault>
    requires made { IsTrue (makes_tree entries) }
    requires bodies { IsTrue (bodies_fit entries) }
    ensures { IsReplyPut (AnswersBy R.may job entries) (K.held sink.old) (K.held sink.new) (K.faults sink.old) (K.faults sink.new) result }
{
    match replier.reply(alloc, job, entries) {
        Ok(reply) => return put_whole(sink, reply.as_slice(), Served::Replied),
        Err(_) => return refuse(sink, FrameError::Memory),
    }
}

// The reply that carries what preprocessing gives over the tree of the entries alone. A mirror has no call that fails, so
// that each error is want of memory. `last` says whether the process ends behind it.
pub(crate) fn preprocessed(
    alloc: Global,
    job: &Job,
    entries: List<(CanonPath, Entry)>,
    last: bool,
) -> Result<Bytes, CppError>
    requires made { IsTrue (makes_tree entries) }
    requires bodies { IsTrue (bodies_fit entries) }
    ensures { IfOk result (λ reply. IsAnswerTo Answers (Some job.now) entries reply) }
{
    let mut tree = Mirror::of(alloc, entries);
    let outcome = outcome_over(alloc, &mut tree, job, last)?;
    let_go(tree, last);
    Ok(write_reply(alloc, answer_of(outcome))?)
}

// Gives back what a value takes, or leaves it where the process ends behind it.
pub(crate) fn let_go<T: Drop>(value: T, last: bool) {
    if last {
        forget(value);
    }
}

// What preprocessing gives over a request's tree.
fn outcome_over<T: Tree>(
    alloc: Global,
    tree: &mut T,
    job: &Job,
    last: bool,
) -> Result<Outcome, CppError>
    ensures outcome { IfOk result (λ outcome. IfSome (T.told tree.old) (λ told. outcome ≡ outcome_over told job.now)) }
    ensures fits { IfOk result OutcomeFits }
{
    if last {
        preprocess_last(alloc, tree, job)
    } else {
        preprocess(alloc, tree, job)
    }
}

// Puts the refusal of a reason, which takes no memory.
pub(crate) fn refuse<K: Sink>(sink: &mut K, why: FrameError) -> Result<Served, WriteFault>
    ensures { IsReplyPut (OnlyReply (refusal_served why) (reply_bytes (Refused (number_of why)))) (K.held sink.old) (K.held sink.new) (K.faults sink.old) (K.faults sink.new) result }
{
    put_whole(sink, refusal_bytes(why), refused(why))
}

// Puts a whole reply, and answers how serving ends then, if the sink takes it.
fn put_whole<K: Sink>(sink: &mut K, reply: &[u8], served: Served) -> Result<Served, WriteFault>
    ensures { IsReplyPut (OnlyReply served reply.now) (K.held sink.old) (K.held sink.new) (K.faults sink.old) (K.faults sink.new) result }
{
    match sink.put(reply) {
        Ok(()) => return Ok(served),
        Err(fault) => return Err(fault),
    }
}

// How serving ends where a refusal was put.
fn refused(why: FrameError) -> Served
    ensures { result ≡ refusal_served why }
{
    match why {
        FrameError::Memory => Served::Memory,
        FrameError::Version => Served::Refused(2),
        FrameError::Token => Served::Refused(3),
        FrameError::Digits => Served::Refused(4),
        FrameError::Limit => Served::Refused(5),
        FrameError::Order => Served::Refused(6),
        FrameError::Parent => Served::Refused(7),
        FrameError::Words => Served::Refused(8),
        FrameError::Cut => Served::Refused(9),
    }
}

// The reply that refuses by a reason.
pub(crate) fn refusal_bytes(why: FrameError) -> &'static [u8]
    ensures { result.now ≡ reply_bytes (Refused (number_of why)) }
{
    match why {
        FrameError::Memory => b"RFSE00000001",
        FrameError::Version => b"RFSE00000002",
        FrameError::Token => b"RFSE00000003",
        FrameError::Digits => b"RFSE00000004",
        FrameError::Limit => b"RFSE00000005",
        FrameError::Order => b"RFSE00000006",
        FrameError::Parent => b"RFSE00000007",
        FrameError::Words => b"RFSE00000008",
        FrameError::Cut => b"RFSE00000009",
    }
}

// A reader of a frame that is fed in any pieces: what the readers of all frames share.
ghost use Rattle.std.specs.Prelude.{◌≡◌, [], ◌++◌, ℕ, List, true, false, None, nat_lt};
ghost use Rattle.job_frames.specs.Fields.{short};
ghost use Rattle.job_frames.specs.Formats.{reading};
ghost use Rattle.job_frames.specs.Outcomes.{IsFed, IsEnded, number_of, reason, value_of};
ghost use Rattle.job_frames.specs.declared.Fed.TheVariants.{Refused};
ghost use Rattle.job_frames.specs.parts.Machines.{left_of, verdict, KeepsReader, IsWholeFrame};
ghost use Rattle.job_frames.specs.parts.Machines as machines;

use crate::field::{Field, Frame};
use crate::machine::{Machine, lacks, run};
use crate::{Fed, FrameError};
use std::alloc::Global;

// A machine, and why it stopped, if it did.
#[derive(Drop)]
pub struct FrameReader<F> {
    pub machine: Machine<F>,
    pub stopped: Option<FrameError>,
}

impl<F> FrameReader<F> {
    // The frame, as far as it was read.
    pub fn into_frame(self) -> F
        ensures { result ≡ self.machine.frame }
    {
        let FrameReader {
            machine,
            stopped: _,
        } = self;
        let Machine {
            alloc: _,
            pending: _pending,
            frame,
        } = machine;
        frame
    }
}

// A reader to which nothing has come.
pub fn begin<F: Frame>(alloc: Global, frame: F) -> FrameReader<F>
    requires keeps { F.Keeps frame }
    requires waits { reading (F.format frame) [] ≡ short }
    ensures reads { (follows : _) (bytes : List ℕ) → left_of F.format follows result bytes ≡ verdict follows (reading (F.format frame) bytes) }
    ensures keeps { KeepsReader F.format F.Keeps result.stopped result.machine }
{
    FrameReader {
        machine: Machine {
            alloc,
            pending: Vec::new(alloc),
            frame,
        },
        stopped: None,
    }
}

// The verdict where a machine rests and so many bytes of a piece were taken: where none may follow the end, a byte more is wrong.
fn rested(follows: bool, fed: Fed, at: usize, size: usize) -> Fed
    ensures { result ≡ machines.rested fed follows (nat_lt at size) }
{
    match fed {
        Fed::Done => {
            if !follows && lacks(at, size) {
                Fed::Refused(FrameError::Order)
            } else {
                Fed::Done
            }
        }
        other => other,
    }
}

// Takes the next piece, and answers the verdict on all bytes so far. A refusal stays.
pub fn feed<F: Frame>(r: &mut FrameReader<F>, follows: bool, piece: &[u8]) -> Fed
    requires { KeepsReader F.format F.Keeps r.old.stopped r.old.machine }
    ensures fed { IsFed (left_of F.format follows r.old) piece.now (left_of F.format follows r.new) result }
    ensures stays { (e : FrameError) → result ≡ Refused e → (more : List ℕ) → left_of F.format follows r.new more ≡ reason (number_of e) }
    ensures keeps { KeepsReader F.format F.Keeps r.new.stopped r.new.machine }
{
    if let Some(e) = r.stopped {
        return Fed::Refused(e);
    }
    let ran = run(&mut r.machine, piece);
    let fed = rested(follows, ran.fed, ran.at, piece.len());
    if let Fed::Refused(e) = fed {
        r.stopped = Some(e);
    }
    fed
}

// All has come, and nothing was wrong.
pub fn is_whole<F: Frame>(r: &FrameReader<F>) -> bool
    requires { KeepsReader F.format F.Keeps r.now.stopped r.now.machine }
    ensures whole { result ≡ true → IsWholeFrame (F.format r.now.machine.frame) }
    ensures running { result ≡ true → r.now.stopped ≡ None }
    ensures empty { result ≡ true → r.now.machine.pending.items ≡ [] }
    ensures other { result ≡ false → (follows : _) → value_of (left_of F.format follows r.now []) ≡ None }
{
    if r.stopped.is_some() {
        return false;
    }
    match r.machine.frame.due() {
        Field::Whole => true,
        _ => false,
    }
}

// Tells that no byte follows: where nothing was wrong, but the frame isn't whole, the verdict is `Cut`.
pub fn end<F: Frame>(r: &mut FrameReader<F>, follows: bool) -> Fed
    requires { KeepsReader F.format F.Keeps r.old.stopped r.old.machine }
    ensures ended { IsEnded (left_of F.format follows r.old) (left_of F.format follows r.new) result }
    ensures keeps { KeepsReader F.format F.Keeps r.new.stopped r.new.machine }
{
    if let Some(why) = r.stopped {
        return Fed::Refused(why);
    }
    match r.machine.frame.due() {
        Field::Whole => Fed::Done,
        _ => {
            r.stopped = Some(FrameError::Cut);
            Fed::Refused(FrameError::Cut)
        }
    }
}

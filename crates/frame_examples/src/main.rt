//! The program: feeds frames that are written as text to their readers, in any pieces, and prints what the readers answer.
//! `HELP` has the notation of its standard input.
#![tactic(auto)]

mod cases;
mod feeding;
mod images;
mod shown;

use case_texts::{WordLines, run_program};
use cases::Frames;
use std::process::ExitCode;

const HELP: &str = "usage: frame_examples < CASES

Prints each line of the cases, and behind it what the case gives. BYTES are one
word of printable ASCII and \\n \\t \\r \\0 \\\\ \\xNN, with \\x20 for a space, or none.

  # WORDS, or nothing    a heading
  request                from here on requests, with an empty frame; so reply, image
  part NAME BYTES        the frame goes on with a token and its body, under a name
  behind BYTES           what is fed behind each request and reply from here on

  frame BYTES            the frame is BYTES, and has no parts
  whole                  the frame
  then BYTES             the frame, and BYTES behind it
  before BYTES           BYTES, and the frame behind them
  upto NAME BYTES        the frame up to a part, and BYTES behind that
  over NAME BYTES        the frame with BYTES over as many of its own, from a part on
  letters BYTES          the same from each letter of each part's token on
  digits BYTES           the same from each digit of each part's token on
  fronts                 each number of the frame's first bytes, but not all
  times COUNT BYTES      so many times BYTES
  directories COUNT PATH the image of so many directories, whose paths are PATH and
                         five digits, written and read again

A case gives each change of the verdict, which is More before the first byte: its
name in job_frames, and the bytes of the case up to the one with which it comes,
without those of the frame in front of what the case puts there. Then comes what
a whole frame says, and then the verdict with more bytes behind the frame, where
that changes it. So it is byte by byte; a line `cut at` would say where two
pieces that are cut there are answered otherwise. An image is read in one piece,
and written again where it has no link.

status: 0, 2 wrong words or a line that can't be done, 4 a failed read or write, 5
out of memory";

fn main(rt: HostRuntime) -> ExitCode {
    run_program(
        &rt,
        "frame_examples",
        HELP,
        &mut WordLines(Frames::new(rt.alloc())),
    )
}

// The cases: what a run is given, in lines, and then the run.
use crate::given::Given;
use crate::run::do_run;
use case_texts::{Line, Wrong, read_line};
use std::alloc::Global;
use std::mem::replace;
use std::sync::Wait;
use std::thread::Threads;

/// Does the runs of cases, and says what comes of each. An error has the number of its line.
pub fn do_runs<H: Threads + Wait + Sync>(
    handles: &H,
    alloc: Global,
    out: &mut String,
    lines: &str,
) -> Result<(), (u32, Wrong)> {
    let mut given = Some(Given::new(alloc));
    let mut number = 0u32;
    for line in lines.lines() {
        number = number.saturating_add(1);
        if let Err(wrong) = do_line(handles, alloc, out, &mut given, line) {
            return Err((number, wrong));
        }
    }
    Ok(())
}

// `given` is what the run of the case is given so far; none behind the run.
fn do_line<H: Threads + Wait + Sync>(
    handles: &H,
    alloc: Global,
    out: &mut String,
    given: &mut Option<Given>,
    line: &str,
) -> Result<(), Wrong> {
    match read_line(out, line)? {
        Line::Ends => *given = Some(Given::new(alloc)),
        Line::Comment => (),
        Line::Says("run", words) => match replace(given, None) {
            Some(given) => do_run(handles, alloc, out, given, words)?,
            None => return Err(Wrong::Form("the case has its run")),
        },
        Line::Says(word, rest) => match given {
            Some(given) => given.take(alloc, word, rest)?,
            None => return Err(Wrong::Form("nothing stands behind a case's run")),
        },
    }
    Ok(())
}

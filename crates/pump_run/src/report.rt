// The report of the jobs.
ghost use Rattle.std.specs.Prelude.{◌≡◌, ◌++◌, [], ◌∷◌, count_by, codes, IfOk, OnOk};
ghost use Rattle.pump_run.specs.parts.Steps.{refusal_text_of};
ghost use Rattle.pump_run.specs.Report.{why_text, word_number, run_text, jobs_text, job_text, totals_text, looks_text, outcome_text, after_text, way_text, refusal_text, is_remote, is_local, is_broken};

use base_types::Bytes;
use build_clients::{Cause, Done, JobOutcome, Totals, Way};
use closure_fixpoint::Refusal;
use compile_list::{ListError, ListWhy};
use job_words::WordError;
use std::alloc::{AllocError, Global};

/// The report of these jobs: their lines, the line of how many were done where, and that of what the memo of sheets did.
pub fn report_of(alloc: Global, records: &[Done], totals: Totals) -> Result<Bytes, AllocError>
    ensures { IfOk result (λ text. text ≡ run_text records.now totals) }
{
    let mut text = Vec::new(alloc);
    add_jobs(alloc, &mut text, records)?;
    add_looks(alloc, &mut text, totals)?;
    Ok(Bytes::of(text))
}

// Adds the lines of the jobs, and the line of how many were done where.
#[tactic(auto, unfolding(crate::specs::Report::jobs_text))]
fn add_jobs(alloc: Global, text: &mut Vec<u8>, records: &[Done]) -> Result<(), AllocError>
    ensures { OnOk result (text.new.items ≡ text.old.items ++ jobs_text records.now) }
{
    for done in records {
        add_job(alloc, text, done)?;
    }
    add_totals(alloc, text, records)
}

// Adds the line of what the memo of sheets did.
#[tactic(auto, unfolding(crate::specs::Report::looks_text))]
fn add_looks(alloc: Global, text: &mut Vec<u8>, totals: Totals) -> Result<(), AllocError>
    ensures { OnOk result (text.new.items ≡ text.old.items ++ looks_text totals) }
{
    let Totals {
        looks,
        hits,
        kept,
        already,
        full,
    } = totals;
    let line = format!(in alloc;
        "looks {looks} hits {hits} kept {kept} already {already} full {full}\n"
    )?;
    text.extend_from_slice(line.as_bytes())
}

/// The line that says why a list is refused.
#[tactic(auto, unfolding(crate::specs::parts::Steps::refusal_text_of))]
pub fn refusal_line(alloc: Global, error: ListError) -> Result<Bytes, AllocError>
    ensures { IfOk result (λ line. line ≡ refusal_text_of error) }
{
    let ListError { line, why } = error;
    let mut text = Vec::new(alloc);
    let head = format!(in alloc; "pump: list {line}: ")?;
    text.extend_from_slice(head.as_bytes())?;
    text.extend_from_slice(why_words(why))?;
    text.extend_from_slice(b"\n")?;
    Ok(Bytes::of(text))
}

// Why a list is refused, in words.
fn why_words(why: ListWhy) -> &'static [u8]
    ensures { result.now ≡ why_text why }
{
    match why {
        ListWhy::Escape => b"escape",
        ListWhy::Limit => b"limit",
        ListWhy::Words(why) => words_words(why),
        ListWhy::Output => b"output",
        ListWhy::Memory => b"memory",
    }
}

// Why words give no job, by its number.
fn words_words(why: WordError) -> &'static [u8]
    ensures { result.now ≡ codes "words " ++ word_number why }
{
    match why {
        WordError::NoSource => b"words 1",
        WordError::TwoSources => b"words 2",
        WordError::Unknown => b"words 3",
        WordError::NoOperand => b"words 4",
        WordError::BadMacro => b"words 5",
        WordError::Limit => b"words 6",
        WordError::Cwd => b"words 7",
        WordError::Memory => b"words 8",
    }
}

// Adds the lines of a job.
#[tactic(auto, unfolding(crate::specs::Report::job_text))]
fn add_job(alloc: Global, text: &mut Vec<u8>, done: &Done) -> Result<(), AllocError>
    ensures { OnOk result (text.new.items ≡ text.old.items ++ job_text done.now) }
{
    let job = done.job;
    let head = format!(in alloc; "job {job} ")?;
    text.extend_from_slice(head.as_bytes())?;
    add_outcome(alloc, text, &done.outcome)?;
    text.extend_from_slice(b" ")?;
    text.extend_from_slice(way_words(done.way))?;
    text.extend_from_slice(b"\n")?;
    add_after(text, &done.outcome)?;
    Ok(())
}

fn add_outcome(alloc: Global, text: &mut Vec<u8>, outcome: &JobOutcome) -> Result<(), AllocError>
    ensures { OnOk result (text.new.items ≡ text.old.items ++ outcome_text outcome.now) }
{
    match outcome {
        JobOutcome::Text(length) => {
            let words = format!(in alloc; "text {length}")?;
            text.extend_from_slice(words.as_bytes())
        }
        JobOutcome::Diag(_) => text.extend_from_slice(b"diag"),
        JobOutcome::TreeFault => text.extend_from_slice(b"tree-fault"),
        JobOutcome::OutFault => text.extend_from_slice(b"out-fault"),
        JobOutcome::Memory => text.extend_from_slice(b"memory"),
    }
}

// The bytes of a diagnostic, on lines of their own.
fn add_after(text: &mut Vec<u8>, outcome: &JobOutcome) -> Result<(), AllocError>
    ensures { OnOk result (text.new.items ≡ text.old.items ++ after_text outcome.now) }
{
    if let JobOutcome::Diag(words) = outcome {
        text.extend_from_slice(words.as_slice())?;
        text.extend_from_slice(b"\n")?;
    }
    Ok(())
}

fn way_words(way: Way) -> &'static [u8]
    ensures { result.now ≡ way_text way }
{
    match way {
        Way::Remote => b"remote",
        Way::Local(Cause::Analysis(refusal)) => refusal_words(refusal),
        Way::Local(Cause::Link) => b"local link",
        Way::Local(Cause::Peer) => b"local peer",
        Way::Local(Cause::DaemonMemory) => b"local daemon-memory",
        Way::Local(Cause::Memory) => b"local memory",
        Way::Broken => b"broken",
    }
}

fn refusal_words(refusal: Refusal) -> &'static [u8]
    ensures { result.now ≡ codes "local " ++ refusal_text refusal }
{
    match refusal {
        Refusal::Budget => b"local A1",
        Refusal::Long => b"local A2",
        Refusal::Presumed => b"local A3",
        Refusal::Visits => b"local A4",
        Refusal::Large => b"local A5",
        Refusal::Request => b"local A6",
        Refusal::NoSource => b"local A7",
    }
}

// Adds the line of totals.
#[tactic(auto, unfolding(crate::specs::Report::totals_text))]
fn add_totals(alloc: Global, text: &mut Vec<u8>, records: &[Done]) -> Result<(), AllocError>
    ensures { OnOk result (text.new.items ≡ text.old.items ++ totals_text records.now) }
{
    let jobs = records.len();
    let remote = remote_count(records);
    let local = local_count(records);
    let broken = broken_count(records);
    let line = format!(in alloc; "jobs {jobs} remote {remote} local {local} broken {broken}\n")?;
    text.extend_from_slice(line.as_bytes())
}

fn remote_count(records: &[Done]) -> usize
    ensures { result ≡ count_by (λ done. is_remote done.way) records.now }
{
    records.iter().filter(|done| is_remote(done.way)).count()
}

fn local_count(records: &[Done]) -> usize
    ensures { result ≡ count_by (λ done. is_local done.way) records.now }
{
    records.iter().filter(|done| is_local(done.way)).count()
}

fn broken_count(records: &[Done]) -> usize
    ensures { result ≡ count_by (λ done. is_broken done.way) records.now }
{
    records.iter().filter(|done| is_broken(done.way)).count()
}

fn is_remote(way: Way) -> bool
    ensures { result ≡ is_remote way }
{
    matches!(way, Way::Remote)
}

fn is_local(way: Way) -> bool
    ensures { result ≡ is_local way }
{
    matches!(way, Way::Local(_))
}

fn is_broken(way: Way) -> bool
    ensures { result ≡ is_broken way }
{
    matches!(way, Way::Broken)
}

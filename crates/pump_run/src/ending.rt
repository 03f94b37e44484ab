// How a run ends: a line or the report of its jobs is put on the report, and its status.
ghost use Rattle.std.specs.Prelude.{◌≡◌, ◌≤◌};
ghost use Rattle.job_ends.specs.Works.{is_memory, is_out_fault, is_tree_fault, is_diag};
ghost use Rattle.pump_run.specs.parts.Steps.{some_record, status_for, LineIsPut, TextIsPut, JobsAreTold};

use crate::report::report_of;
use build_clients::{Done, JobOutcome, Totals};
use io_edges::{Sink, WriteFault};
use std::alloc::Global;

// The statuses of a run, beside 0 where each job gave a text.
pub(crate) const DIAGNOSED: u8 = 1;

pub(crate) const USAGE: u8 = 2;

pub(crate) const REFUSED: u8 = 3;

pub(crate) const FAULT: u8 = 4;

pub(crate) const NO_MEMORY: u8 = 5;

pub(crate) const TREE_FAULT: u8 = 6;

/// Ends a run before its jobs: puts a line, whatever comes of that, and answers the status, or that of no memory.
pub fn refuse<K: Sink>(report: &mut K, line: &[u8], status: u8) -> u8
    requires low { 2 ≤ status }
    requires high { status ≤ 5 }
    ensures { LineIsPut line.now status (K.held report.old) (K.held report.new) (K.faults report.old) (K.faults report.new) result }
{
    match report.put(line) {
        Ok(()) => return status,
        Err(WriteFault::Fault) => return status,
        Err(WriteFault::Memory) => return NO_MEMORY,
    }
}

/// Ends a run whose jobs were done: puts its report, and answers the status.
pub fn tell<K: Sink>(alloc: Global, records: &[Done], totals: Totals, report: &mut K) -> u8
    ensures { JobsAreTold records.now totals (K.held report.old) (K.held report.new) (K.faults report.old) (K.faults report.new) result }
{
    let status = status_of(records);
    match report_of(alloc, records, totals) {
        Ok(text) => return put_report(report, text.as_slice(), status),
        Err(_) => return NO_MEMORY,
    }
}

// Puts the report of a run that is to end with this status.
fn put_report<K: Sink>(report: &mut K, text: &[u8], status: u8) -> u8
    ensures { TextIsPut text.now status (K.held report.old) (K.held report.new) (K.faults report.old) (K.faults report.new) result }
{
    match report.put(text) {
        Ok(()) => return status,
        Err(WriteFault::Fault) => {
            if status == NO_MEMORY {
                return NO_MEMORY;
            }
            return FAULT;
        }
        Err(WriteFault::Memory) => return NO_MEMORY,
    }
}

// The status by the outcomes of the jobs, where their report is put.
#[tactic(auto, unfolding(crate::specs::parts::Steps::status_for))]
fn status_of(records: &[Done]) -> u8
    ensures { result ≡ status_for records.now }
{
    if lacked_memory(records) {
        NO_MEMORY
    } else if lost_output(records) {
        FAULT
    } else if lost_tree(records) {
        TREE_FAULT
    } else if was_diagnosed(records) {
        DIAGNOSED
    } else {
        0
    }
}

// Some job found no memory.
fn lacked_memory(records: &[Done]) -> bool
    ensures { result ≡ some_record is_memory records.now }
{
    records.iter().any(|done| is_memory(&done.outcome))
}

// Some job's text couldn't be put.
fn lost_output(records: &[Done]) -> bool
    ensures { result ≡ some_record is_out_fault records.now }
{
    records.iter().any(|done| is_out_fault(&done.outcome))
}

// The tree failed in some job.
fn lost_tree(records: &[Done]) -> bool
    ensures { result ≡ some_record is_tree_fault records.now }
{
    records.iter().any(|done| is_tree_fault(&done.outcome))
}

// Some job has a diagnostic.
fn was_diagnosed(records: &[Done]) -> bool
    ensures { result ≡ some_record is_diag records.now }
{
    records.iter().any(|done| is_diag(&done.outcome))
}

fn is_memory(outcome: &JobOutcome) -> bool
    ensures { result ≡ is_memory outcome.now }
{
    matches!(outcome, JobOutcome::Memory)
}

fn is_out_fault(outcome: &JobOutcome) -> bool
    ensures { result ≡ is_out_fault outcome.now }
{
    matches!(outcome, JobOutcome::OutFault)
}

fn is_tree_fault(outcome: &JobOutcome) -> bool
    ensures { result ≡ is_tree_fault outcome.now }
{
    matches!(outcome, JobOutcome::TreeFault)
}

fn is_diag(outcome: &JobOutcome) -> bool
    ensures { result ≡ is_diag outcome.now }
{
    matches!(outcome, JobOutcome::Diag(_))
}

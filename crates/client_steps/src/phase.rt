// The phases of a client.

use crate::Need;
use base_types::Bytes;
use closure_fixpoint::Fixpoint;
use host_slots::Lease;
use job_ends::{Done, Replied};
use sheet_build::{Sheet, SheetKey};

/// Where a client stands. It waits for the answer to a need in `Draws`, `Looks`, `Publishes`, `Takes` and `Gives`; in the
/// others it has work to do. An analysis may ask `left` questions more. `hosts` is the number of hosts, and `host` that of
/// the host that was asked.
pub enum Phase {
    Rests,
    Draws,
    Begins {
        job: u32,
    },
    Looks {
        job: u32,
        left: u64,
        fixpoint: Fixpoint,
        key: SheetKey,
    },
    Finds {
        job: u32,
        left: u64,
        fixpoint: Fixpoint,
        key: SheetKey,
        sheet: Sheet,
    },
    Misses {
        job: u32,
        left: u64,
        fixpoint: Fixpoint,
        key: SheetKey,
    },
    Publishes {
        job: u32,
        left: u64,
        fixpoint: Fixpoint,
        key: SheetKey,
    },
    Goes {
        job: u32,
        left: u64,
        fixpoint: Fixpoint,
    },
    Wants {
        job: u32,
        request: Bytes,
    },
    Takes {
        job: u32,
        request: Bytes,
        hosts: usize,
    },
    Calls {
        job: u32,
        request: Bytes,
        hosts: usize,
        lease: Lease,
    },
    Gives {
        job: u32,
        host: u32,
        replied: Replied,
    },
    Concludes {
        job: u32,
        replied: Replied,
    },
    Ended,
}

/// What a private step came to: another phase with work to do, the record of a job, or a need to wait for.
pub enum Advanced {
    Goes(Phase),
    Records(Done),
    Waits(Phase, Need),
}

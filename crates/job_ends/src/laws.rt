// The laws of a job's record.
ghost use Rattle.job_ends.specs.Agree.{EntriesAreEnough, RecordsAgree, NoPeers, RecordsAreCalm};

use job_frames::{reply_spellings, request_spellings, request_trees};
use job_words::jobs_are_short;

/// Where preprocessing over the entries of a job gives what it gives over the whole tree, and hosts answer as daemons
/// do: each outcome that is recorded is that of preprocessing over the whole tree; no job is done locally for what its
/// host answered; and a job in which no count of faults rose is remote, or local by its analysis or for want of memory.
pub fn records_agree()
    ensures agree { EntriesAreEnough → RecordsAgree }
    ensures no_peer { EntriesAreEnough → NoPeers }
    ensures calm { EntriesAreEnough → RecordsAreCalm }
{
    jobs_are_short();
    request_spellings();
    request_trees();
    reply_spellings();
}

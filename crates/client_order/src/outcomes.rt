// The laws of a job's outcome.
ghost use Rattle.job_ends.specs.Agree.{RecordsAgree, NoPeers, RecordsAreCalm};

use job_ends::records_agree;
use mirror_soundness::mirror_is_enough;

/// Where hosts answer as daemons do, each outcome that a client records is that of preprocessing over the whole tree, no
/// job is done locally for what its host answered, and only what failed, the analysis and want of memory have a job done
/// locally.
pub fn outcomes_agree()
    ensures agree { RecordsAgree }
    ensures no_peer { NoPeers }
    ensures calm { RecordsAreCalm }
{
    mirror_is_enough();
    records_agree();
}

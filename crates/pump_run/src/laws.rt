// The law of a run.
ghost use Rattle.pump_run.specs.Run.{ServedByDaemon};

use io_edges::Wire;

/// Where the other side of a wire can be nothing but the daemon, and the wires tell their talk, each exchange was answered
/// as the daemon answers.
pub fn served_by_daemon<W: Wire>()
    ensures { ServedByDaemon W.peer }
{}

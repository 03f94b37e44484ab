// The ends of clients, and what is recorded of a job.

use base_types::Bytes;
use closure_fixpoint::Refusal;
use io_edges::{Outs, Wire};
use tree_model::Tree;

/// What one client works with: a tree, a link to hosts, and a place for outputs.
#[derive(Drop)]
pub struct End<T: Tree, W: Wire, O: Outs> {
    pub tree: T,
    pub wire: W,
    pub outs: O,
}

/// Why a job was done locally.
#[derive(Clone, Copy, Debug, PartialEq, Eq, Drop)]
pub enum Cause {
    /// Its analysis was refused.
    Analysis(Refusal),
    /// The link to its host failed.
    Link,
    /// What its host answered is no text and no diagnostic: no reply, or a refusal for a reason from 2 to 9.
    Peer,
    /// Its host found no memory.
    DaemonMemory,
    /// The client found no memory for the analysis or the exchange.
    Memory,
}

/// Where a job was done.
#[derive(Clone, Copy, Debug, PartialEq, Eq, Drop)]
pub enum Way {
    Remote,
    Local(Cause),
    /// Nowhere: the tree failed in the analysis.
    Broken,
}

/// What came of a job.
#[derive(Debug, Drop)]
pub enum JobOutcome {
    /// A text of so many bytes was put under the job's output name.
    Text(u64),
    /// The bytes of a diagnostic.
    Diag(Bytes),
    /// The client's tree failed.
    TreeFault,
    /// The text couldn't be put.
    OutFault,
    /// There was no memory.
    Memory,
}

/// The record of a job: its number in the list, from 0, the client that did it, what came of it, and where it was done.
#[derive(Debug, Drop)]
pub struct Done {
    pub job: u32,
    pub client: u32,
    pub outcome: JobOutcome,
    pub way: Way,
}

//! Trees of files: canonical paths, nodes, the trait of an object that shows a tree, walks through a tree as in
//! POSIX pathname resolution, a tree in memory, and a tree that remembers the nodes of another.
#![tactic(auto)]

mod body;
mod cached;
mod entry;
mod frame;
mod glance;
mod laws;
mod learn;
mod mem_tree;
mod nodes;
mod order;
mod path;
mod places;
mod reached;
mod showing;
mod spelling;
mod tree;
mod walk;

pub use body::read_body;
pub use cached::{Cached, Remembers};
pub use entry::{Entry, Node, copied};
pub use frame::{frame_law, leads_law, looked_law, walked_law};
pub use laws::{
    entries_of_trees, fitting_bodies_are_small, judging_makes_trees, lists_make_trees,
    looked_up_by_bytes, parents_make_trees, spellings_are_apart, tests_decide,
};
pub use mem_tree::{MemTree, MirrorError, entry_at};
pub use nodes::{Nodes, SharedNodes};
pub use order::{entry_spelled, judge_entries, judge_path};
pub use path::CanonPath;
pub use places::Places;
pub use reached::{Reached, Walks};
pub use showing::shown;
pub use tree::{Frozen, Tree, TreeError, Unnamed};
pub use walk::{Located, locate};

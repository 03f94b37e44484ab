//! The law that joins the analysis and preprocessing: preprocessing a job over the files that were sent gives just what
//! preprocessing it over the whole tree gives.
#![tactic(auto)]

ghost use Rattle.mirror_soundness.specs.Mirror.{EntriesMakeTree, MirrorIsEnough, NothingHoldsAnalysed, TouchesNodesAlone};

use closure_fixpoint::closures;
use directive_scan::outline_holds;
use macro_expand::choice_fact;
use search_path::{search_frame, searches_locate};
use sheet_build::places_locate;
use tree_model::{
    entries_of_trees, leads_law, lists_make_trees, parents_make_trees, tests_decide, walked_law,
};

/// A law of the whole of preprocessing: macros, conditions, computed includes, operands of `__has_include`, line
/// directives, and files that are read once. It takes no work.
pub fn mirror_is_enough()
    ensures tree { EntriesMakeTree }
    ensures touched { TouchesNodesAlone }
    ensures enough { MirrorIsEnough }
    ensures analysed { NothingHoldsAnalysed }
{
    closures();
    places_locate();
    choice_fact();
    outline_holds();
    lists_make_trees();
    entries_of_trees();
    tests_decide();
    parents_make_trees();
    walked_law();
    leads_law();
    searches_locate();
    search_frame();
}

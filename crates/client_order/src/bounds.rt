// What runs of clients keep.
ghost use Rattle.client_order.specs.Ran.{RunsAreBounded};

use closure_fixpoint::closures;

/// What every run of clients keeps: how often its jobs look into the memo, how many of the looks neither found a sheet nor led to
/// a publication, and how often the trees are read.
pub fn runs_are_bounded()
    ensures { RunsAreBounded }
{
    closures();
}

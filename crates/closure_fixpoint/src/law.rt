// Laws of closures.
ghost use Rattle.closure_fixpoint.specs.Laws.{ClosuresExist, ClosuresAreOne, GatheredAreSent};
ghost use Rattle.closure_fixpoint.specs.Requested.{RefusalsHold};

use directive_scan::HeaderName;
use search_path::searches_locate;
use sheet_build::places_locate;
use symbolic_expand::more_definitions;
use tree_model::walked_law;

/// Each job over a tree has one closure.
pub fn closures()
    ensures exist { ClosuresExist }
    ensures one { ClosuresAreOne }
{
    more_definitions::<HeaderName>();
    walked_law();
    searches_locate();
}

/// What is gathered of just the nodes of a job are the entries that are sent for it.
pub fn gathered_are_sent()
    ensures { GatheredAreSent }
{
    walked_law();
    searches_locate();
}

/// What an analysis that was told what is true of a tree refuses a job for holds of it over that tree.
pub fn refusals_hold()
    ensures { RefusalsHold }
{
    closures();
    places_locate();
    walked_law();
    searches_locate();
    more_definitions::<HeaderName>();
}

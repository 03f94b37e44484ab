// Laws of places.
ghost use Rattle.sheet_build.specs.Laws.{PlacesLocate};

use tree_model::walked_law;

/// The place of a located file locates it again from the root, up to 40 links on the way.
pub fn places_locate()
    ensures { PlacesLocate }
{
    walked_law();
}

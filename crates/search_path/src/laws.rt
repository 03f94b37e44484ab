// Laws of searches.
ghost use Rattle.search_path.specs.Keys.{SetupsDecide, VisitsDecide};
ghost use Rattle.search_path.specs.Laws.{SearchesLocate, IsFoundInPart, IsFoundInNoPart};

use tree_model::frame_law;

/// What a search finds is located from the root or from the directory of the file that asks.
pub fn searches_locate()
    ensures { SearchesLocate }
{}

/// A search in a part of a tree goes as in the whole tree, as far as the part has the nodes walked.
pub fn search_frame()
    ensures found { IsFoundInPart }
    ensures not_found { IsFoundInNoPart }
{
    frame_law();
}

/// Setups, and visits, are equal by `==` exactly where they are the same.
pub fn equal_are_same()
    ensures setups { SetupsDecide }
    ensures visits { VisitsDecide }
{}

// Laws of walks.
ghost use Rattle.tree_model.specs.Frame.{IsLocatedInPart, IsLocatedInNoPart, IsNoneOrSame, LeadsOfLocated, HoldsOfLocated, WalksByLooked, LocatesByLooked};

/// A walk in a part of a tree goes as in the whole tree, as far as the part has the nodes walked.
pub fn frame_law()
    ensures found { IsLocatedInPart }
    ensures not_found { IsLocatedInNoPart }
    ensures either { IsNoneOrSame }
{}

/// A located file is one, and its place leads to it.
pub fn leads_law()
    ensures { LeadsOfLocated }
{}

/// A walk in a tree stands at nodes alone.
pub fn walked_law()
    ensures { HoldsOfLocated }
{}

/// A walk goes by the paths looked up alone.
pub fn looked_law()
    ensures walks { WalksByLooked }
    ensures located { LocatesByLooked }
{}

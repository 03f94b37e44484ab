// Laws of paths and trees, each the contract of a function that does nothing.
ghost use Rattle.tree_model.specs.Laws.{ListsMakeTrees, EntriesAreNodes, NodesAreEntries, FittingBodiesAreSmall, LookedUpByBytes, SpellingsAreApart, NamesAreBack, TestsDecide, JudgedAreSpelled, JudgedIncrease, JudgedMakeTrees, EntriesAreJudged, ParentsMakeTrees};

/// A list of entries that passes the test makes a tree.
pub fn lists_make_trees()
    ensures { ListsMakeTrees }
{}

/// A list whose paths have their parents anywhere in it makes a tree.
pub fn parents_make_trees()
    ensures { ParentsMakeTrees }
{}

/// The nodes of such a tree are its entries, and the root.
pub fn entries_of_trees()
    ensures entries { EntriesAreNodes }
    ensures nodes { NodesAreEntries }
{}

/// The files of a list's tree have at most as many bytes as are read, where those of the list have.
pub fn fitting_bodies_are_small()
    ensures { FittingBodiesAreSmall }
{}

/// Looking a path up by its bytes is looking it up by its names.
pub fn looked_up_by_bytes()
    ensures { LookedUpByBytes }
{}

/// No two canonical paths have one spelling, and each is read back from its own.
pub fn spellings_are_apart()
    ensures apart { SpellingsAreApart }
    ensures back { NamesAreBack }
{}

/// The test of a canonical path decides whether it is one.
pub fn tests_decide()
    ensures { TestsDecide }
{}

/// Lists make trees where each path is judged well behind those before it: one entry more, and back.
pub fn judging_makes_trees()
    ensures spelled { JudgedAreSpelled }
    ensures increase { JudgedIncrease }
    ensures made { JudgedMakeTrees }
    ensures judged { EntriesAreJudged }
{}

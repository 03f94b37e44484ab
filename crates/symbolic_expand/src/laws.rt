// Laws of runs under sets of definitions.
ghost use Rattle.symbolic_expand.specs.Laws.{MoreKeepRuns, MoreKeepHeaders, MoreKeepLongRuns, MoreKeepPresumedRuns, MoreKeepManyRuns, MoreMakeNoFewer, MoreKeepSupport, SupportDecides};

/// Sets with more definitions keep each run's end: the headers that computed tokens may name (ISO C 6.10.2 paragraph 4), however a
/// header is read, the runs without work or with a presumed line or name that isn't known, and the names met. Where each
/// definition stands once, they have no fewer runs. So more definitions never take a header, or a refusal that holds, away.
pub fn more_definitions<H>()
    ensures runs { MoreKeepRuns }
    ensures headers { MoreKeepHeaders H }
    ensures long { MoreKeepLongRuns }
    ensures presumed { MoreKeepPresumedRuns }
    ensures many { MoreKeepManyRuns }
    ensures no_fewer { MoreMakeNoFewer }
    ensures support { MoreKeepSupport }
{}

/// Where two sets, in which each definition stands once, give each name that some run meets the same definitions, computed
/// tokens have the same answer under both (ISO C 6.10.2 paragraph 4): the headers, however a header is read, the names met, and whether
/// there are too many runs, one without work, or one with a presumed line or name that isn't known.
pub fn support_decides<H>()
    ensures { SupportDecides H }
{}

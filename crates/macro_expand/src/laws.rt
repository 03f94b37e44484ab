// Laws of macro expansion.
ghost use Rattle.macro_expand.specs.Laws.{ExpansionUnfolds, TablesCompose, ExpandsByTable, ArgumentsExpandByTable, UnitsNeverRise, UnitsNeverRiseByTable, ChoiceFactHolds};

/// Expansion is one step over itself, as trees of questions (6.10.3.4), in every mode, at every depth, with any units of
/// work. Where a table answers, it answers the parts of an expansion one after the other, and what becomes of the first
/// token, of a call's arguments and of a replacement's work is as the steps say.
pub fn expansion_unfolds()
    ensures unfolds { ExpansionUnfolds }
    ensures composes { TablesCompose }
    ensures expands { ExpandsByTable }
    ensures arguments { ArgumentsExpandByTable }
{}

/// An expansion never leaves more units of work than it began with, whatever the answers.
pub fn expansion_is_frugal()
    ensures frugal { UnitsNeverRise }
    ensures by_table { UnitsNeverRiseByTable }
{}

/// Where each definition of a table is in the sets, and the presumed name that runs know, if they know one, is that of the
/// place, the run along the table's answers is a complete run of the sets (6.10.2 p4, 6.10.3). The table's expansion ends
/// for want of work, or that run has no work left or meets a presumed line or name that isn't known (6.10.8.1), or both
/// end alike, and the run is that of the list of the table's answers, which it uses up.
pub fn choice_fact()
    ensures { ChoiceFactHolds }
{}

//! Numbers and names.
ghost use Rattle.library_examples.specs.WorkedNames.{NamesAreSpelled, NumbersRun, PagesHaveLimits, RefusalsAreNamed};

/// Numbers run from 1, in the order in which the lists of all have them.
pub fn numbers_run()
    ensures { NumbersRun }
{}

/// Formats, events and states are named as clients spell them.
pub fn names_are_spelled()
    ensures { NamesAreSpelled }
{}

/// Each refusal is named by its own word, whatever its detail.
pub fn refusals_are_named()
    ensures { RefusalsAreNamed }
{}

/// A page has a limit of at least 1.
pub fn pages_have_limits()
    ensures { PagesHaveLimits }
{}

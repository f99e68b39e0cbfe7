//! Laws of the conditions of changes. Nothing here runs.
ghost use Rattle.core_parts.specs.Conditions.{GoodIsReady};

/// A good library is ready for each change.
pub fn good_is_ready()
    ensures { GoodIsReady }
{}

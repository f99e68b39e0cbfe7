//! Laws of outcomes. Each function does nothing.
ghost use Rattle.tams_outcomes.specs.Laws.{FaultsHaveOneOutcome, NamedAreRefusals, StatusesDiffer};

/// The status of a named refusal is that of an outcome with such a one, each number is that of one status, and the statuses of faults
/// and of bad words are each those of one outcome.
pub fn statuses_tell_outcomes()
    ensures named { NamedAreRefusals }
    ensures differ { StatusesDiffer }
    ensures faults { FaultsHaveOneOutcome }
{}

//! Laws of the definitions, which no code needs to run.
ghost use Rattle.json_bodies.specs.Refusals.{AreBodyRefusals};

/// A law: each refusal of a reader is one of those with the numbers 8 to 14.
pub fn refusals_are_of_bodies()
    ensures { AreBodyRefusals }
{}

//! A law of the definitions, which no code needs to run.
ghost use Rattle.tams_http.specs.Refusals.{AreRequestRefusals};

/// A law: each refusal of what a request asks for is one of those with the numbers 6 to 20.
pub fn refusals_are_of_requests()
    ensures { AreRequestRefusals }
{}

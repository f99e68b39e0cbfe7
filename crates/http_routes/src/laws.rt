//! A law of the definitions, which no code needs to run.
ghost use Rattle.http_routes.specs.Apart.{AreApart};

/// A law: no path is one of two routes.
pub fn routes_are_apart()
    ensures { AreApart }
{}

//! Laws of worked histories. Each function does nothing.
ghost use Rattle.history_examples.specs.Served.{EachIsServed};
ghost use Rattle.history_examples.specs.Unserved.{NothingServes};

/// No session serves a connection on which something is owed, or that was not heard out.
pub fn nothing_serves()
    ensures { NothingServes }
{}

/// A session serves a connection of each kind of step, and of each end of its link.
pub fn each_is_served()
    ensures { EachIsServed }
{}

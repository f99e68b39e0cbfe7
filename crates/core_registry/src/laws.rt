//! Laws that lead from the library's own words to those of a registry. Nothing here runs.
ghost use Rattle.core_registry.specs.Laws.{GoingFlowsForget, GoingIsTold};

/// Of segments that go, what happens needs their hull alone.
pub fn going_is_told()
    ensures { GoingIsTold }
{}

/// A flow that goes leaves nothing of the moment at which its segments did.
pub fn going_flows_forget()
    ensures { GoingFlowsForget }
{}

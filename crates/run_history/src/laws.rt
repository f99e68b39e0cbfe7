//! The laws that a contract can say. Those over devices are the theorems of the proofs.
ghost use Rattle.run_history.specs.Laws.{BegunIsGreatest};
ghost use Rattle.run_history.specs.Worked.{WorkedEndings, Failing, OtherSteps, Serving, SixSteps};

/// The number of what had begun is the greatest that an answer counts of which a byte was told.
pub fn begun_is_greatest()
    ensures { BegunIsGreatest }
{}

/// Six steps on four connections come to these scripts, states and moments, and this had begun of them.
pub fn six_steps()
    ensures { SixSteps }
{}

/// What a skipped turn and a fault of the disk at other places come to.
pub fn other_steps()
    ensures { OtherSteps }
{}

/// A connection is served by its steps, and not where a whole request is left unanswered.
pub fn serving()
    ensures { Serving }
{}

/// Where the disk may fail in a request.
pub fn failing()
    ensures { Failing }
{}

/// How a connection that nothing ended must end, and for which states a file may stand at the end.
pub fn ending()
    ensures { WorkedEndings }
{}

//! The numbers of a run: its answers, its changes and the turns that it skipped.
ghost use Rattle.std.specs.Prelude.{◌≡◌, ◌≤◌, ◌<◌, ◌+◌, ◌^◌, if◌then◌else◌, true, false};
ghost use Rattle.run_history.specs.Serving.{RunCounts};

use std::marker::Model;

/// How many answers a run gave, how many changes it made, and how many turns it skipped.
#[derive(Drop)]
pub struct RunTally {
    answers: u64,
    changes: u64,
    skipped: u64,
}

impl Model for RunTally {
    ghost use Rattle.std.specs.Prelude.{◌≤◌, ◌*◌};
    ghost use Rattle.run_history.specs.Serving.{RunCounts};
    ghost use Rattle.connection_loop.specs.Tallies.{IsTally};

    ghost Value = { RunCounts };

    ghost view = { λ t. record { answers = t.answers; changes = t.changes; skipped = t.skipped } };

    ghost invariant = { λ t. IsTally t.answers t.changes t.skipped };
}

impl RunTally {
    ghost use Rattle.connection_loop.specs.Tallies.{plus_answer, nothing_counted};

    /// The numbers of a run that hasn't begun.
    pub fn new() -> RunTally
        ensures { result ≡ nothing_counted }
    {
        RunTally {
            answers: 0,
            changes: 0,
            skipped: 0,
        }
    }

    /// Counts an answer, with so many changes.
    pub fn count(&mut self, changes: u64)
        requires room { self.old.answers < 2 ^ 60 }
        requires few { changes ≤ 2 }
        ensures { self.new ≡ plus_answer changes false self.old }
    {
        self.answers += 1;
        self.changes += changes;
    }

    /// Counts an answer, with so many changes, behind which the turn was skipped.
    pub fn count_skipped(&mut self, changes: u64)
        requires room { self.old.answers < 2 ^ 60 }
        requires few { changes ≤ 2 }
        ensures { self.new ≡ plus_answer changes true self.old }
    {
        self.answers += 1;
        self.changes += changes;
        self.skipped += 1;
    }

    pub fn answers(&self) -> u64
        ensures { result ≡ self.now.answers }
    {
        self.answers
    }

    pub fn changes(&self) -> u64
        ensures { result ≡ self.now.changes }
    {
        self.changes
    }

    pub fn skipped(&self) -> u64
        ensures { result ≡ self.now.skipped }
    {
        self.skipped
    }
}

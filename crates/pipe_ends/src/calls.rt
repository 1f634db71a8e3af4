//! Calls that are counted, of which some are to fail.
ghost use Rattle.std.specs.Prelude.{◌≡◌, ◌≤◌};
ghost use Rattle.pipe_ends.specs.Calls.{fails_next, after_call};

use std::marker::Model;

/// Which calls are to fail, and how many came and failed so far. Both counts stay at 2^64 - 1.
#[derive(Debug, Drop)]
pub(crate) struct Calls {
    failing: Vec<u64>,
    made: u64,
    faults: u64,
}

// Clauses see the three as plain data.
impl Model for Calls {
    ghost use Rattle.pipe_ends.specs.Calls.{Counts};

    ghost Value = { Counts };

    ghost view = { λ c. record { failing = c.failing.items; made = c.made; faults = c.faults } };
}

impl Calls {
    /// No call so far, of which these are to fail.
    pub(crate) fn new(failing: Vec<u64>) -> Calls
        ensures { result ≡ record { failing = failing.items; made = 0; faults = 0 } }
    {
        Calls {
            failing,
            made: 0,
            faults: 0,
        }
    }

    /// Counts one more call, and whether it fails.
    pub(crate) fn next_fails(&mut self) -> bool
        ensures exact { result ≡ fails_next self.old }
        ensures counted { self.new ≡ after_call self.old }
        ensures later { self.old.faults ≤ self.new.faults }
    {
        self.made = self.made.saturating_add(1);
        let fails = self.failing.contains(&self.made);
        if fails {
            self.faults = self.faults.saturating_add(1);
        }
        fails
    }
}

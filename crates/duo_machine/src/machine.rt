//! The state of the two-core machine.
//!
//! A core that is about to start a flash operation needs the other one out of the way, since no
//! core may fetch while the flash is busy. It takes the lock, asks the other core at that core's
//! gate to park, or holds the gate shut where the other core has not started, and runs its step
//! once it saw the gate.
ghost use Rattle.std.specs.Prelude.{◌≡◌, ◌↔◌, ◌<◌, IsTrue};
ghost use Rattle.duo_machine.specs.Machine.{first_machine, with_gate, with_phase, with_record};
ghost use Rattle.duo_machine.specs.Machine.{KeepsAway, let_go};
ghost use Rattle.duo_machine.specs.Safe.{Safe};

use core_state::Record;

/// The word by which the two cores agree on whether one of them is parked.
#[derive(Clone, Copy, Debug, PartialEq, Eq)]
pub enum Gate {
    /// Its core has not started.
    Rest,
    /// Its core runs, and nobody wants it to park.
    Run,
    /// The other core asks it to park.
    Asked,
    /// Its core is parked.
    Parked,
    /// Its core is parked and may go on.
    Freed,
    /// Its core has not started, and may not before the other one is done.
    Held,
}

impl Gate {
    /// Whether the other core may go on to run a step: this one's core is parked or held at rest.
    pub(crate) fn keeps_away(self) -> bool
        ensures { IsTrue result ↔ KeepsAway self }
    {
        self == Gate::Parked || self == Gate::Held
    }

    /// The gate once the other core is done.
    pub(crate) fn let_go(self) -> Gate
        ensures { result ≡ let_go self }
    {
        match self {
            Gate::Parked => Gate::Freed,
            Gate::Held => Gate::Rest,
            gate => gate,
        }
    }
}

/// What a core is doing.
#[derive(Clone, Copy, Debug, PartialEq, Eq)]
pub enum Phase {
    /// It has not started.
    Resting,
    /// It runs without the lock.
    Running,
    /// It has the lock.
    Owning,
    /// It asked the other core to park.
    Asking,
    /// The other core is parked or held at rest, so a step on the flash may run.
    Quiet,
    /// It waits, masked, until the other core frees it.
    Parked,
}

/// Both cores, core 0 first, the lock and the running step.
#[derive(Clone, Copy, Debug, PartialEq, Eq)]
pub struct Machine {
    /// 0 for nobody, else the owner plus 1.
    pub lock: u8,
    pub gates: [Gate; 2],
    pub phases: [Phase; 2],
    pub records: [Record; 2],
    /// The core whose step runs on the flash, if one runs.
    pub running: Option<u8>,
}

impl Machine {
    /// The same machine with another lock.
    pub(crate) fn with_lock(&self, lock: u8) -> Machine
        ensures { result ≡ record self.now { lock = lock } }
    {
        Machine { lock, ..*self }
    }

    /// The same machine with another running step.
    pub(crate) fn with_running(&self, running: Option<u8>) -> Machine
        ensures { result ≡ record self.now { running = running } }
    {
        Machine { running, ..*self }
    }

    /// The same machine with another gate of a core.
    pub(crate) fn with_gate(&self, core: usize, gate: Gate) -> Machine
        requires { core < 2 }
        ensures { result ≡ with_gate core gate self.now }
    {
        let mut next = *self;
        next.gates[core] = gate;
        next
    }

    /// The same machine with another phase of a core.
    pub(crate) fn with_phase(&self, core: usize, phase: Phase) -> Machine
        requires { core < 2 }
        ensures { result ≡ with_phase core phase self.now }
    {
        let mut next = *self;
        next.phases[core] = phase;
        next
    }

    /// The same machine with another record of a core.
    pub(crate) fn with_record(&self, core: usize, registers: Record) -> Machine
        requires { core < 2 }
        ensures { result ≡ with_record core registers self.now }
    {
        let mut next = *self;
        next.records[core] = registers;
        next
    }
}

/// Neither core has started, nobody has the lock and nothing runs.
pub fn first() -> Machine
    ensures exact { result ≡ first_machine }
    ensures safe { Safe result }
{
    Machine {
        lock: 0,
        gates: [Gate::Rest; 2],
        phases: [Phase::Resting; 2],
        records: [Record::starting(); 2],
        running: None,
    }
}

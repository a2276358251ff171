//! Which calls on a source or a sink in memory fail.

ghost use Rattle.std.specs.Prelude.{◌≡◌, ◌↔◌, ◌≤◌, IsTrue, IfOk, Contains};
ghost use Rattle.script_io.specs.Faults.{next_count, HasFailed};
ghost use Rattle.script_io.specs.Memory.{Tally};

use std::alloc::Global;
use std::marker::Model;
use vm_base::HostMemory;

/// The calls that are to fail, numbered from 1, and how many calls and faults there were. Both
/// counts stay at 2^64 - 1.
#[derive(Debug, Drop)]
pub(crate) struct Plan {
    fails: Vec<u64>,
    calls: u64,
    faults: u64,
}

impl Model for Plan {
    ghost use Rattle.script_io.specs.Memory.{Tally};

    ghost Value = { Tally };

    ghost view = { λ p. record { fails = p.fails.items; calls = p.calls; faults = p.faults } };
}

impl Plan {
    /// Makes a plan with no call yet, in which these calls are to fail.
    pub(crate) fn new(alloc: Global, fails: &[u64]) -> Result<Plan, HostMemory>
        ensures { IfOk result (λ p. p ≡ record { fails = fails.now; calls = 0; faults = 0 }) }
    {
        let fails = Vec::from_slice(alloc, fails).map_err(|_| HostMemory)?;
        Ok(Plan {
            fails,
            calls: 0,
            faults: 0,
        })
    }

    /// Counts a call, and answers whether it is one that is to fail.
    pub(crate) fn count_call(&mut self) -> bool
        ensures planned { IsTrue result ↔ Contains self.old.fails (next_count self.old.calls) }
        ensures after { self.new ≡ record self.old { calls = next_count self.old.calls } }
    {
        self.calls = self.calls.saturating_add(1);
        self.fails.as_slice().contains(&self.calls)
    }

    /// Counts a fault.
    pub(crate) fn count_fault(&mut self)
        ensures after { self.new ≡ record self.old { faults = next_count self.old.faults } }
        ensures later { self.old.faults ≤ self.new.faults }
        ensures failed { HasFailed self.old.faults self.new.faults }
    {
        self.faults = self.faults.saturating_add(1);
    }
}

//! The mappings in a region.

ghost use Rattle.std.specs.Prelude.{◌≡◌, [], ◌∷◌, ◌++◌, OnOk, OnErr};

use std::alloc::Global;
use std::marker::Model;
use vm_base::{HostMemory, Koid, Perm, RegionName};

/// Mappings that follow each other: `len` bytes from the address on show the VMO from `offset` bytes
/// on, with one permission and by one region.
#[derive(Clone, Copy, Debug, PartialEq, Eq)]
pub struct Run {
    pub addr: u64,
    pub len: u64,
    pub perm: Perm,
    pub koid: Koid,
    pub offset: u64,
    pub region: RegionName,
}

/// The runs of mappings in a region, in address order. Clauses see a list.
#[derive(Debug, Drop)]
pub struct Runs {
    runs: Vec<Run>,
}

impl Model for Runs {
    ghost use Rattle.std.specs.Prelude.{List};
    ghost use Rattle.vm_model.specs.declared.runs.Run.{Run};

    ghost Value = { List Run };

    ghost view = { λ r. r.runs.items };
}

impl Runs {
    /// Makes a list of no runs.
    pub fn new(alloc: Global) -> Runs
        ensures { result ≡ [] }
    {
        Runs {
            runs: Vec::new(alloc),
        }
    }

    /// Adds a run at the end. `HostMemory`, with nothing changed, if the host has too little memory.
    pub fn push(&mut self, run: Run) -> Result<(), HostMemory>
        ensures ok { OnOk result (self.new ≡ self.old ++ run ∷ []) }
        ensures err { OnErr result (self.new ≡ self.old) }
    {
        match self.runs.push(run) {
            Ok(()) => Ok(()),
            Err(_) => Err(HostMemory),
        }
    }

    /// Returns the runs.
    pub fn as_slice(&self) -> &[Run]
        ensures { result.now ≡ self.now }
    {
        self.runs.as_slice()
    }
}

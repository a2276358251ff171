//! The table of jobs.

ghost use Rattle.std.specs.Prelude.{◌≡◌, ◌≤◌, None, OnOk, OnErr, IsSome};
ghost use Rattle.vm_base.specs.Entries.{with_key, without_key};
ghost use Rattle.batch_model.specs.Batch.{jobs_after};
ghost use Rattle.batch_vm.specs.Jobs.{jobs_of};

use crate::pieces::pages_left;
use batch_model::{Job, JobName};
use pair_map::PairMap;
use std::alloc::Global;
use std::marker::Model;
use vm_base::HostMemory;

/// The jobs that are there, by their names. No call but `add` asks the host for memory.
#[derive(Drop)]
pub struct JobTable {
    /// Each job stands under its number and 0.
    jobs: PairMap<Job>,
}

impl Model for JobTable {
    ghost use Rattle.batch_vm.specs.Jobs.{Jobs};

    ghost Value = { Jobs };

    ghost view = { λ a. a.jobs };
}

impl JobTable {
    /// Makes a table with no job.
    pub fn new(alloc: Global) -> JobTable
        ensures { jobs_of result ≡ λ n. None }
    {
        JobTable {
            jobs: PairMap::new(alloc),
        }
    }

    /// Returns a job. `None` exactly if it is not there.
    pub fn find(&self, name: JobName) -> Option<Job>
        ensures { result ≡ jobs_of self.now name.0 }
    {
        self.jobs.find(name.0 as u64, 0)
    }

    /// Adds a job that is not there. `HostMemory` if the host has too little memory, and then nothing changes.
    pub fn add(&mut self, name: JobName, job: Job) -> Result<(), HostMemory>
        requires { jobs_of self.old name.0 ≡ None }
        ensures ok { OnOk result (jobs_of self.new ≡ with_key (jobs_of self.old) name.0 job) }
        ensures err { OnErr result (jobs_of self.new ≡ jobs_of self.old) }
    {
        let Ok(()) = self.jobs.reserve(1) else {
            return Err(HostMemory);
        };
        self.jobs.insert(name.0 as u64, 0, job);
        Ok(())
    }

    /// Notes how far a job that is there has got. It goes if no page of it is left.
    pub fn advance(&mut self, name: JobName, job: Job)
        requires there { IsSome (jobs_of self.old name.0) }
        requires inside { job.next ≤ job.end }
        ensures { jobs_of self.new ≡ jobs_after (jobs_of self.old) name.0 job }
    {
        if pages_left(&job) == 0 {
            self.remove(name);
        } else {
            self.jobs.replace(name.0 as u64, 0, job);
        }
    }

    /// Takes out a job that is there.
    pub fn remove(&mut self, name: JobName)
        requires { IsSome (jobs_of self.old name.0) }
        ensures { jobs_of self.new ≡ without_key (jobs_of self.old) name.0 }
    {
        let _removed = self.jobs.remove(name.0 as u64, 0);
    }
}

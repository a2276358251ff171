//! The pieces of a job.

ghost use Rattle.std.specs.Prelude.{◌≡◌, ◌+◌, ◌≤◌};
ghost use Rattle.batch_model.specs.Pieces.{plain_command, left_of, piece_len};
ghost use Rattle.batch_model.specs.Batch.{IsGoodJob};

use batch_model::{Job, JobKind};
use std::cmp::min;
use vm_base::PAGE;
use vm_model::Call;

/// Returns how many pages of a job are left.
pub fn pages_left(job: &Job) -> u64
    requires { job.now.next ≤ job.now.end }
    ensures { result ≡ left_of job.now }
{
    (job.end - job.next) / PAGE
}

/// Returns the bytes of the next `pages` pages of a job, or of all that are left if these are fewer. `pages` may be any
/// number.
pub fn piece_len(job: &Job, pages: u64) -> u64
    requires { IsGoodJob job.now }
    ensures len { result ≡ piece_len job.now pages }
    ensures inside { job.now.next + result ≤ job.now.end }
{
    min(pages, pages_left(job)) * PAGE
}

/// Returns the plain command on `len` bytes of a job, from the next on.
pub fn piece_call(job: &Job, len: u64) -> Call<'static>
    ensures { result ≡ plain_command job.now.kind job.now.name job.now.next len }
{
    let name = job.name;
    let offset = job.next;
    match job.kind {
        JobKind::Commit => Call::VmoCommit { name, offset, len },
        JobKind::Zero => Call::VmoZero { name, offset, len },
        JobKind::Decommit => Call::VmoDecommit { name, offset, len },
    }
}

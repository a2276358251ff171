//! The words of a line on jobs, by their places.

ghost use Rattle.std.specs.Prelude.{◌≡◌, None, Some, slice_get, MatchOption, nat_lt, length};
ghost use Rattle.vm_base.specs.declared.limits.TheConstants.{NAMES};
ghost use Rattle.vm_model.specs.Language.Reading.{words, below, name_behind, number, vmo};
ghost use Rattle.batch_model.specs.BatchLanguage.{job_name, job_kind};
ghost use Rattle.batch_vm.specs.Places.{at_place};

use batch_model::{JobKind, JobName};
use script_text::{number, vmo, word_at};
use vm_base::VmoName;

/// Returns a word of a line, counted from 0. `None` exactly if the line has no such word.
pub fn word(line: &[u8], index: u64) -> Option<&[u8]>
    ensures { MatchOption result (slice_get (words line.now) index ≡ None) (λ w. slice_get (words line.now) index ≡ Some w.now) }
{
    let (start, end) = word_at(line, index)?;
    Some(&line[start..end])
}

/// Reports whether a line has more words than so many.
pub fn has_more(line: &[u8], count: u64) -> bool
    ensures { result ≡ nat_lt count (length (words line.now)) }
{
    word_at(line, count).is_some()
}

/// Returns the number of a word, in either spelling, which is below 2^32. `None` if it is spelled otherwise.
fn small_number(word: &[u8]) -> Option<u32>
    ensures { result ≡ below NAMES (number word.now) }
{
    u32::try_from(number(word)?).ok()
}

/// Reads the number of a job: `j`, and a decimal number below 2^32 without leading zeros. `None` if it is spelled
/// otherwise.
#[tactic(auto, using(crate::proofs::PlaceLaws::small_decimal))]
fn job_number(word: &[u8]) -> Option<u32>
    ensures { result ≡ name_behind 106 word.now }
{
    let (first, behind) = word.split_first()?;
    if *first != b'j' {
        return None;
    }
    if let [b'0', _, ..] = behind {
        return None;
    }
    small_number(behind)
}

/// Returns the name of a job: `j` and its number. `None` if it is spelled otherwise.
#[tactic(auto, unfolding(batch_model::specs::BatchLanguage::job_name))]
pub fn job_name(word: &[u8]) -> Option<JobName>
    ensures { result ≡ job_name word.now }
{
    Some(JobName(job_number(word)?))
}

/// Returns what a job does: `commit`, `zero` or `decommit`. `None` if it is spelled otherwise.
#[tactic(auto, unfolding(batch_model::specs::BatchLanguage::job_kind))]
pub fn job_kind(word: &[u8]) -> Option<JobKind>
    ensures { result ≡ job_kind word.now }
{
    if word == b"commit".as_slice() {
        Some(JobKind::Commit)
    } else if word == b"zero".as_slice() {
        Some(JobKind::Zero)
    } else if word == b"decommit".as_slice() {
        Some(JobKind::Decommit)
    } else {
        None
    }
}

/// Returns the name of a job at a place of a line.
pub fn job_name_at(line: &[u8], index: u64) -> Option<JobName>
    ensures { result ≡ at_place job_name (words line.now) index }
{
    job_name(word(line, index)?)
}

/// Returns what a job does, at a place of a line.
pub fn job_kind_at(line: &[u8], index: u64) -> Option<JobKind>
    ensures { result ≡ at_place job_kind (words line.now) index }
{
    job_kind(word(line, index)?)
}

/// Returns the name of a VMO at a place of a line.
pub fn vmo_at(line: &[u8], index: u64) -> Option<VmoName>
    ensures { result ≡ at_place vmo (words line.now) index }
{
    vmo(word(line, index)?)
}

/// Returns a number at a place of a line.
pub fn number_at(line: &[u8], index: u64) -> Option<u64>
    ensures { result ≡ at_place number (words line.now) index }
{
    number(word(line, index)?)
}

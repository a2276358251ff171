//! What became of the commands of a workload.

ghost use Rattle.std.specs.Prelude.{◌≡◌, ◌+◌, ◌<◌, ◌≤◌, ◌++◌, ◌^◌, length, take};
ghost use Rattle.vm_model.specs.Contents.Content.{used, vmos_of};
ghost use Rattle.vm_model.specs.Language.Text.{ok_line};
ghost use Rattle.vm_session.specs.inside.Working.{tally_text, with_reply};

use page_store::PageStore;
use vm_base::{Refusal, TEXT_ROOM};
use vm_model::Answer;
use word_text::{put, put_field};

/// The numbers of commands that were done, that were refused, and for which the host lacked memory.
#[derive(Clone, Copy)]
pub(crate) struct Tally {
    pub(crate) ok: u64,
    pub(crate) refused: u64,
    pub(crate) host: u64,
}

impl Tally {
    /// Counts an answer.
    pub(crate) fn add(&mut self, answer: &Answer<'_>)
        requires ok { self.old.ok < 2 ^ 63 }
        requires refused { self.old.refused < 2 ^ 63 }
        requires host { self.old.host < 2 ^ 63 }
        ensures { self.new ≡ with_reply self.old answer.now }
    {
        match answer {
            Answer::Refused(Refusal::HostMemory) => self.host += 1,
            Answer::Refused(_) => self.refused += 1,
            _ => self.ok += 1,
        }
    }
}

/// Writes the line of the counts and of what is in use to the front of `out`, and returns where it ends.
pub(crate) fn write_tally<P: PageStore>(tally: Tally, store: &P, out: &mut [u8]) -> usize
    requires { TEXT_ROOM ≤ length out.old }
    ensures line { take result out.new
        ≡ ok_line (tally_text tally (used (P.content store.now)) (vmos_of (P.content store.now))) }
    ensures end { result ≤ length out.new }
{
    let used = store.frames() - store.free();
    let at = put(b"OK", out, 0);
    let at = put_tally(tally, used as u64, store.vmos(), out, at);
    put(b"\n", out, at)
}

/// Writes what the line says behind the first `at` bytes of `out`, which stay, and returns where it ends.
fn put_tally(tally: Tally, used: u64, vmos: u64, out: &mut [u8], at: usize) -> usize
    requires { at + 200 ≤ length out.old }
    ensures written { take result out.new ≡ take at out.old ++ tally_text tally used vmos }
    ensures end { result ≤ at + 200 }
{
    let at = put_field(b" ok=", tally.ok, out, at);
    let at = put_field(b" refused=", tally.refused, out, at);
    let at = put_field(b" host=", tally.host, out, at);
    let at = put_field(b" used=", used, out, at);
    put_field(b" vmos=", vmos, out, at)
}

//! What C keeps of a machine.

ghost use Rattle.std.specs.Prelude.{◌≡◌, is_some, None, Some, option_map};
ghost use Rattle.vmosim_c.specs.Kept.{AnswersKept, Opens};

use crate::handle::Handle;
use crate::opening::{KeptVm, opened};
use held_vm::{AnswerError, OpenError};
use std::alloc::Global;
use std::mem::replace;

/// The 16 bytes that C keeps of a machine. All zeros are a closed one.
///
/// Callers see it by reference alone. So whatever lets a machine go stands here, and is proved here.
#[repr(C)]
pub struct Vmosim {
    pub handle: Handle,
    is_open: bool,
    ghost agrees: { is_open ≡ is_some handle.value },
}

impl Vmosim {
    /// Opens a machine with `frames` page frames and nothing else, and closes the one that was there. It is closed if the call is refused.
    pub fn start(&mut self, alloc: Global, frames: u32) -> Result<(), OpenError>
        ensures { Opens result frames self.new.handle.value }
    {
        self.close(alloc);
        match opened(alloc, frames) {
            Ok(made) => {
                self.put(made);
                Ok(())
            }
            Err(refusal) => Err(refusal),
        }
    }

    /// Answers a line, without its line feed, as `HeldVm::answer` does. A closed machine answers none.
    pub fn answer(
        &mut self,
        alloc: Global,
        line: &[u8],
        out: &mut [u8],
    ) -> Option<Result<usize, AnswerError>>
        ensures { AnswersKept result line.now self.old.handle.value self.new.handle.value out.old out.new }
    {
        let Some(mut kept) = self.take(alloc) else {
            return None;
        };
        let answer = kept.as_mut().held.answer(line, out);
        self.put(kept);
        Some(answer)
    }

    /// Closes the machine. A closed one stays as it is.
    pub fn close(&mut self, alloc: Global)
        ensures { self.new.handle.value ≡ None }
    {
        drop(self.take(alloc));
    }

    /// Takes the machine out, if there is one. It is closed then.
    fn take(&mut self, alloc: Global) -> Option<Box<KeptVm>>
        ensures taken { option_map (λ b. b.value) result ≡ self.old.handle.value }
        ensures closed { self.new.handle.value ≡ None }
    {
        if !self.is_open {
            return None;
        }
        let closed = Vmosim {
            handle: Handle::closed(),
            is_open: false,
        };
        let Vmosim { handle, is_open: _ } = replace(self, closed);
        Some(handle.unseal(alloc))
    }

    /// Puts a machine into a closed one.
    fn put(&mut self, machine: Box<KeptVm>)
        requires { self.old.handle.value ≡ None }
        ensures { self.new.handle.value ≡ Some machine.value }
    {
        let open = Vmosim {
            handle: Handle::seal(machine),
            is_open: true,
        };
        let Vmosim { handle, is_open: _ } = replace(self, open);
        handle.discard();
    }
}

//! A machine in its box, as C keeps it.

ghost use Rattle.std.specs.Prelude.{◌≡◌, None, Some, Option, IsSome};
ghost use Rattle.vmosim_c.specs.declared.opening.KeptVm.{KeptVm};

use crate::opening::KeptVm;
use std::alloc::Global;
use std::marker::Model;
use std::ptr::null_mut;

/// The box of a machine as its address alone, or no box.
///
/// It has no `Drop`, so the compiler refuses code that lets a machine go with its handle. What frees the machine is the box that
/// `unseal` returns.
#[repr(C)]
pub struct Handle {
    at: *mut u8,
    pub ghost value: { Option KeptVm },
}

impl Model for Handle {
    ghost use Rattle.vmosim_c.specs.contracts.opening.KeptVm.{the_row};
    ghost use Rattle.vmosim_c.specs.Owning.{handle_owns};

    ghost also_owns = { λ h. handle_owns the_row h.at h.value };
}

impl Handle {
    /// Returns a handle without a box.
    pub(crate) fn closed() -> Handle
        ensures { result.value ≡ None }
    {
        Handle { at: null_mut() }
    }

    /// Returns the handle of a box.
    pub(crate) fn seal(machine: Box<KeptVm>) -> Handle
        ensures { result.value ≡ Some machine.value }
    {
        let at = Box::into_raw(machine);
        Handle { at: at as *mut u8 }
    }

    /// Returns the box.
    pub(crate) fn unseal(self, alloc: Global) -> Box<KeptVm>
        requires { IsSome self.value }
        ensures { self.value ≡ Some result.value }
    {
        let Handle { at } = self;
        unsafe { Box::from_raw(alloc, at as *mut KeptVm) }
    }

    /// Lets a handle without a box go.
    pub(crate) fn discard(self)
        requires { self.value ≡ None }
    {
        let Handle { at: _ } = self;
    }
}

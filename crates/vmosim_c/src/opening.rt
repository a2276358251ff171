//! A machine that is opened.

ghost use Rattle.std.specs.Prelude.{◌≡◌, IfOk, MatchResult};
ghost use Rattle.vm_model.specs.Contents.Content.{nothing};
ghost use Rattle.vm_model.specs.Machine.Machine.{empty_machine};
ghost use Rattle.cow_forest.specs.Store.{forest_content};
ghost use Rattle.vmosim_c.specs.Kept.{machine_kept, IsFrameCount, IsRefusal};

use cow_forest::CowForest;
use held_vm::{HeldVm, OpenError};
use std::alloc::Global;
use vm_base::{FRAMES, HostMemory};

/// The machine that is kept, over the clone tree.
#[derive(Drop)]
pub struct KeptVm {
    pub held: HeldVm<CowForest>,
}

/// Returns a tree with nothing, in a box. The function is not inlined, so its copies of the tree are gone before the machine is made.
#[inline(never)]
fn new_tree(alloc: Global) -> Result<Box<CowForest>, HostMemory>
    ensures { IfOk result (λ b. forest_content b.value ≡ nothing) }
{
    match Box::new(alloc, CowForest::new(alloc)) {
        Ok(tree) => Ok(tree),
        Err(lack) => {
            // By one call: at the end of the body the tables of the tree would be let go, and that proved, one by one.
            drop(lack);
            Err(HostMemory)
        }
    }
}

/// Returns a machine with `frames` page frames and nothing else, in a box.
pub(crate) fn opened(alloc: Global, frames: u32) -> Result<Box<KeptVm>, OpenError>
    ensures { MatchResult result (λ b. machine_kept b.value ≡ empty_machine frames) (λ e. IsRefusal e frames) }
{
    if frames < 1 || frames > FRAMES {
        return Err(OpenError::FrameCount);
    }
    let Ok(tree) = new_tree(alloc) else {
        return Err(OpenError::OutOfMemory);
    };
    let held = match HeldVm::over(alloc, frames, tree) {
        Ok(held) => held,
        Err(_lack) => return Err(OpenError::OutOfMemory),
    };
    match Box::new(alloc, KeptVm { held }) {
        Ok(machine) => Ok(machine),
        Err(lack) => {
            // By one call: at the end of the body the tables of the machine would be let go, and that proved, one by one.
            drop(lack);
            Err(OpenError::OutOfMemory)
        }
    }
}

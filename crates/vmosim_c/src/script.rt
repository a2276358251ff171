//! A whole script that is answered at once.

ghost use Rattle.vmosim_c.specs.Kept.{AnswersScript};

use cow_forest::CowForest;
use held_vm::ScriptError;
use script_io::{SliceSink, SureSource};
use std::alloc::Global;
use vm_base::FRAMES;
use vm_session::{Status, answered_lines_are_a_legal_run, serve};

/// Answers the lines of a script on a machine of its own with `frames` page frames, and writes the text of the replies to the front of
/// `out`. Returns the length of the text in bytes.
pub(crate) fn answer_script(
    alloc: Global,
    frames: u32,
    script: &[u8],
    out: &mut [u8],
) -> Result<usize, ScriptError>
    ensures { AnswersScript result frames script.now out.old out.new }
{
    // So what `serve` says of the lines is said of one legal run.
    answered_lines_are_a_legal_run();
    if frames < 1 || frames > FRAMES {
        return Err(ScriptError::FrameCount);
    }
    let mut text = SliceSink::new(out);
    let mut source = SureSource::new(script);
    let mut store = CowForest::new(alloc);
    let limit = script.len() as u64;
    let status = serve(alloc, frames, limit, &mut store, &mut source, &mut text);
    // By one call: at the end of the body its tables would be let go, and that proved, one by one.
    drop(store);
    let len = text.taken();
    match status {
        Status::Done => Ok(len),
        Status::WriteFault => Err(ScriptError::OutOfRoom),
        Status::HostMemory => Err(ScriptError::OutOfMemory),
        Status::Usage | Status::ReadFault | Status::ScriptLimit => unreachable!(),
    }
}

//! The program: the machine over standard input and output.
//!
//! It makes the clone tree (`cow_forest`) as the store, hands it to `top` with standard input and output as a source
//! and a sink, and ends with the status of the run. It also hands on the functions that page sources are filled from, a
//! gate that holds no actor back, and its own runtime. That starts threads and waits for them, which `top` does for
//! actors alone. It writes nothing to standard error.
#![tactic(auto)]

mod top;
mod verbs;

use crate::top::top;
use cow_forest::CowForest;
use script_io::{ReadSource, WriteSink};
use shared_vm::OpenGate;
use source_vm::{SourceFn, src_byte};
use std::process::ExitCode;
use std::rt::Env;
use std::{env, io};
use vm_session::{Status, code};

#[cfg(test)]
mod tests;

/// The bytes of stack that are touched before anything is read: more than any line needs.
const STACK_BYTES: usize = 40960;

/// Touches the stack that a line may need, so that a program whose stack can't grow ends before it reads. Returns whether each byte
/// is what was written there, which it is. The function is not inlined, so `main` does not keep these bytes.
#[inline(never)]
fn touch_stack(byte: u8) -> bool {
    let room = [byte; STACK_BYTES];
    room.iter().all(|it| *it == byte)
}

/// Returns the words of the command line behind the program's name. `HostMemory` if there is no memory for them,
/// `Usage` if one of them is no text.
fn words(rt: &(impl Env + AllocGlobal)) -> Result<Vec<String>, Status> {
    let args = match env::args(rt) {
        Ok(args) => args,
        Err(error) if error.kind() == io::ErrorKind::OutOfMemory => return Err(Status::HostMemory),
        Err(_) => return Err(Status::Usage),
    };
    let mut words = Vec::new(rt.alloc());
    for word in args.skip(1) {
        if words.push(word).is_err() {
            return Err(Status::HostMemory);
        }
    }
    Ok(words)
}

/// Runs the script on standard input, and answers how it ended.
fn main(rt: HostRuntime) -> ExitCode {
    let words = match words(&rt) {
        Ok(words) => words,
        Err(status) => return ExitCode::from(code(status)),
    };
    // Whether there are words is known only at run time, so the compiler leaves the call.
    if !touch_stack(u8::from(words.is_empty())) {
        return ExitCode::from(code(Status::HostMemory));
    }
    let functions = [
        SourceFn::new(0, |seed, offset| src_byte(0, seed, offset)),
        SourceFn::new(1, |seed, offset| src_byte(1, seed, offset)),
        SourceFn::new(2, |seed, offset| src_byte(2, seed, offset)),
    ];
    let mut store = Some(CowForest::new(rt.alloc()));
    let mut source = ReadSource::new(rt.stdin());
    let mut sink = WriteSink::new(rt.stdout());
    let status = top(
        &rt,
        rt.alloc(),
        &words,
        &OpenGate,
        functions,
        &mut store,
        &mut source,
        &mut sink,
    );
    // By one call: at the end of the body its tables would be dropped one by one, each with a proof.
    drop(store);
    ExitCode::from(code(status))
}

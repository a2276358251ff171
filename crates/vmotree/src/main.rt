//! The program that draws the clone tree of a script on standard input.
//!
//! It makes the clone tree (`cow_forest`) as the store, hands it to `draw` with standard input and output as a source and a sink, and
//! ends with the status of the run. `request` reads the command line, and `tree_text` has the text of a tree. It writes nothing to standard
//! error.
#![tactic(auto)]

mod drawing;
mod request;

use crate::drawing::draw;
use cow_forest::CowForest;
use script_io::{ReadSource, Status, WriteSink, code};
use std::process::ExitCode;
use std::rt::Env;
use std::{env, io};

/// Returns the words of the command line behind the program's name. `HostMemory` if there is no memory for them,
/// `Usage` if one of them is no text.
fn words(rt: &(impl Env + AllocGlobal)) -> Result<Vec<String>, Status> {
    let args = match env::args(rt) {
        Ok(args) => args,
        Err(error) if error.kind() == io::ErrorKind::OutOfMemory => return Err(Status::HostMemory),
        Err(_) => return Err(Status::Usage),
    };
    let mut words = Vec::new(rt.alloc());
    for word in args.skip(1) {
        if words.push(word).is_err() {
            return Err(Status::HostMemory);
        }
    }
    Ok(words)
}

/// Runs the script on standard input, and answers how it ended.
fn main(rt: HostRuntime) -> ExitCode {
    let words = match words(&rt) {
        Ok(words) => words,
        Err(status) => return ExitCode::from(code(status)),
    };
    let mut store = CowForest::new(rt.alloc());
    let mut source = ReadSource::new(rt.stdin());
    let mut sink = WriteSink::new(rt.stdout());
    let status = draw(rt.alloc(), &words, &mut store, &mut source, &mut sink);
    // By one call: at the end of the body its tables would be dropped one by one, each with a proof.
    drop(store);
    ExitCode::from(code(status))
}

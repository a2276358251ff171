//! The words of the command line.

use super::reading::words_of;
use super::runs::written;
use super::text_fault::Fault;
use std::alloc::Global;
use std::test::Fail;
use vm_session::Status;

/// Returns whether these words are refused.
fn are_usage(alloc: Global, words: &[String]) -> bool {
    written(alloc, words, "stat\n").err() == Some(Fault::Ended(Status::Usage))
}

/// Words that no run and no workload has, a line of them each.
const OTHER_WORDS: &str = "\
run --frames 0
run --frames 65537
run extra
go
work 1
work x 1
work 1 1000001
work 18446744073709551616 1
work 0x1 1
work 1 1 --frames 0
work 1 1 extra
--help
RUN

run --frames
run --frames 000001
run --frames 0x10
run --frames\x20
run --frame 1
--frames 1 run
run --frames 1 2";

#[test]
fn other_words_are_usage(rt: HostRuntime) -> Result<(), Fail> {
    for line in OTHER_WORDS.split('\n') {
        let words = words_of(rt.alloc(), line)?;
        assert!(rt; are_usage(rt.alloc(), words.as_slice()), "{line}");
    }
    assert!(rt; are_usage(rt.alloc(), &[]), "no words");
    Ok(())
}

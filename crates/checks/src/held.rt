//! A machine that is held between lines, over the clone tree.

use batch_vm::BatchInterpreter;
use cow_forest::CowForest;
use held_vm::{AnswerError, HeldVm};
use line_server::Interpreter;

/// Reports whether a line is answered so in 64 bytes, with this text at their front.
fn is_answered<I: Interpreter<CowForest>>(
    held: &mut HeldVm<CowForest, I>,
    line: &[u8],
    answer: Result<usize, AnswerError>,
    text: &[u8],
) -> bool {
    let mut out = [b'?'; 64];
    held.answer(line, &mut out) == answer && out.starts_with(text)
}

/// Reports whether four bytes are too few for the reply to a line, and get the front of it.
fn is_short(held: &mut HeldVm<CowForest>, line: &[u8], text: &[u8]) -> bool {
    let mut out = [b'?'; 4];
    held.answer(line, &mut out) == Err(AnswerError::OutOfRoom) && out.starts_with(text)
}

/// Returns whether a machine on two page frames answers lines as `serve` does, one after another.
fn answers(held: &mut HeldVm<CowForest>) -> bool {
    is_answered(held, b"# nothing", Ok(0), b"??")
        && is_short(held, b"stat", b"OK f")
        && is_answered(
            held,
            b"stat",
            Ok(33),
            b"OK frames=2 used=0 free=2 vmos=0\n??",
        )
        && is_answered(held, b"vmo_create v1 8192", Ok(3), b"OK\n??")
        && is_answered(held, b"vmo_write v1 0 aabb", Ok(3), b"OK\n??")
        && is_answered(held, b"vmo_read v1 1 2", Ok(8), b"OK bb00\n??")
}

#[test]
fn replies_are_written_to_the_bytes_of_the_caller(rt: HostRuntime) {
    let alloc = rt.alloc();
    let Ok(mut held) = HeldVm::new(alloc, 2, CowForest::new(alloc)) else {
        panic!(rt; "the host is out of memory");
    };
    let answered = answers(&mut held);
    // By one call: at the end of the body the machine would be dropped part by part, each with a proof.
    drop(held);
    assert!(rt; answered);
}

#[test]
fn jobs_are_done_on_a_machine_that_is_held(rt: HostRuntime) {
    let alloc = rt.alloc();
    let jobs = BatchInterpreter::new(alloc);
    let Ok(mut held) = HeldVm::hold(alloc, 2, CowForest::new(alloc), jobs) else {
        panic!(rt; "the host is out of memory");
    };
    let answered = is_answered(&mut held, b"vmo_create v1 8192", Ok(3), b"OK\n??")
        && is_answered(
            &mut held,
            b"begin j1 commit v1 0 8192",
            Ok(10),
            b"OK left=2\n??",
        )
        && is_answered(&mut held, b"step j1 1", Ok(10), b"OK left=1\n??");
    drop(held);
    assert!(rt; answered);
}

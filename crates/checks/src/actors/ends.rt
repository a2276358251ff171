//! What the actors write, and how their runs end.

use super::{NEVER, Run, acted, lines_of};
use script_io::Status;
use shared_vm::OpenGate;
use std::test::Fail;

/// The tasks of one actor stand in its own order, so the schedule changes nothing. A line with a name alone gives no task.
#[test]
fn one_actor_writes_what_a_script_writes(rt: HostRuntime) -> Result<(), Fail> {
    let input = "a2 vmo_create v1 4096\na2 vmo_write v1 0 11\n# note\na2 vmo_read v1 0 2\na2\n";
    let run = Run::sure("actors", input);
    let end = acted(&rt, rt.alloc(), &OpenGate, run)?;
    assert_eq!(rt; end.status, Status::Done);
    assert_eq!(rt; end.written.as_str(), "a2 OK\na2 OK\na2 OK 1100\n");
    Ok(())
}

/// A line that names no actor is refused as a task of a0, at any time. So is one of 16,385 bytes, which is outside the grammar
/// whomever it names. A reply of several lines has the name on each.
#[test]
fn lines_are_read_as_those_of_a_script(rt: HostRuntime) -> Result<(), Fail> {
    let alloc = rt.alloc();
    let mut input = String::from_str(
        alloc,
        "a3 vmo_create v1 4096\na3 root_create r1\na3 vmar_map r1 0 v1 0 4096 r specific\na3 maps r1\na3 # note\na3 stat\nhello\na1",
    )?;
    for _ in 0..16_383 {
        input.push(' ')?;
    }
    input.push('\n')?;
    let run = Run::sure("actors --frames 1", input.as_str());
    let end = acted(&rt, alloc, &OpenGate, run)?;
    assert_eq!(rt; end.status, Status::Done);
    assert_eq!(rt;
        lines_of(alloc, end.written.as_str(), "a0 ")?.as_str(),
        "SYNTAX|SYNTAX|"
    );
    assert_eq!(rt;
        lines_of(alloc, end.written.as_str(), "a3 ")?.as_str(),
        "OK|OK|OK 0x200000|OK 1|+ 0x200000 4096 r vmo=1 offset=0 region=r1|OK frames=1 used=0 free=1 vmos=1|"
    );
    Ok(())
}

/// Reading and writing fail, and other words are refused.
#[test]
fn runs_end_early(rt: HostRuntime) -> Result<(), Fail> {
    let alloc = rt.alloc();
    let input = "a2 vmo_create v1 4096\na2 vmo_size v1\n";
    for (words, pull, push, status, written) in [
        ("actors", 1, NEVER, Status::ReadFault, ""),
        ("actors", NEVER, 4, Status::WriteFault, "a2 OK\na2 OK 409"),
        ("actors a", NEVER, NEVER, Status::Usage, ""),
    ] {
        let run = Run {
            words,
            input,
            pull,
            push,
        };
        let end = acted(&rt, alloc, &OpenGate, run)?;
        assert_eq!(rt; (end.status, end.written.as_str()), (status, written));
    }
    Ok(())
}

/// An input of 65,536 bytes is done, and one of a byte more is not.
#[test]
fn an_input_has_a_limit(rt: HostRuntime) -> Result<(), Fail> {
    let alloc = rt.alloc();
    let mut input = String::new(alloc);
    for _ in 0..32_768 {
        input.push_str("x\n")?;
    }
    let run = Run::sure("actors", input.as_str());
    let end = acted(&rt, alloc, &OpenGate, run)?;
    assert_eq!(rt;
        (end.status, end.written.lines().count()),
        (Status::Done, 32_768)
    );
    input.push('\n')?;
    let run = Run::sure("actors", input.as_str());
    let end = acted(&rt, alloc, &OpenGate, run)?;
    assert_eq!(rt;
        (end.status, end.written.as_str()),
        (Status::ScriptLimit, "")
    );
    Ok(())
}

//! In which order, and how often, line readers and sinks call what they stand on.

ghost use Rattle.std.specs.Prelude.{◌≤◌};

use super::{Fault, text_of};
use script_io::{Fetch, Lines, MemSink, MemSource, ReadSource, Sink, Source, WriteSink, push_all};
use std::alloc::Global;
use std::io::{self, ErrorKind, Read, Write};
use std::test::Fail;

/// A reader whose next read may be made to fail, as one that a signal interrupts. It fails once.
#[derive(Drop)]
struct Interrupted<'a> {
    rest: &'a [u8],
    fails: bool,
}

impl<'a> Read for Interrupted<'a> {
    fn read(&mut self, buf: &mut [u8]) -> io::Result<usize> {
        if self.fails {
            self.fails = false;
            return Err(io::Error::from(ErrorKind::Interrupted));
        }
        self.rest.read(buf)
    }
}

/// A writer that holds what it takes, and passes it on when it is flushed. Its next write and its
/// next flush may be made to fail. Each fails once.
#[derive(Drop)]
struct Holding {
    held: Vec<u8>,
    passed: Vec<u8>,
    write_fails: bool,
    flush_fails: bool,
}

impl Holding {
    /// Makes a writer that holds nothing, and fails so.
    fn new(alloc: Global, write_fails: bool, flush_fails: bool) -> Holding {
        Holding {
            held: Vec::new(alloc),
            passed: Vec::new(alloc),
            write_fails,
            flush_fails,
        }
    }
}

impl Write for Holding {
    fn write(&mut self, buf: &[u8]) -> io::Result<usize> {
        if self.write_fails {
            self.write_fails = false;
            return Err(io::Error::from(ErrorKind::Interrupted));
        }
        self.held.extend_from_slice(buf)?;
        Ok(buf.len())
    }

    fn flush(&mut self) -> io::Result<()> {
        if self.flush_fails {
            self.flush_fails = false;
            return Err(io::Error::from(ErrorKind::Interrupted));
        }
        self.passed.extend_from_slice(self.held.as_slice())?;
        self.held.clear();
        Ok(())
    }
}

/// Adds a word to those that are told, behind a blank if one is told already.
fn add_word(told: &mut String, word: &str) -> Result<(), Fault> {
    if !told.is_empty() {
        told.push(' ')?;
    }
    told.push_str(word)?;
    Ok(())
}

/// The most calls that are made.
const MOST: usize = 20;

/// Tells what is fetched of a source up to its end.
fn fetch_all(lines: &mut Lines, source: &mut MemSource, told: &mut String) -> Result<(), Fault> {
    for _ in 0..MOST {
        match lines.next(source) {
            Fetch::Line => add_word(told, text_of(lines.line())?)?,
            Fetch::Fault => add_word(told, "FAULT")?,
            Fetch::End => return add_word(told, "END"),
            Fetch::TooLong | Fetch::Limit => return Err(Fault::NoForm),
        }
    }
    Err(Fault::NoForm)
}

/// Tells what a reader fetches of these bytes, from a source that gives so many a call and fails at these calls, from 1.
fn fetch(
    alloc: Global,
    bytes: &[u8],
    piece: usize,
    fails: &[u64],
    told: &mut String,
) -> Result<(), Fault>
    requires { 1 ≤ piece }
{
    let Ok(mut source) = MemSource::new(alloc, bytes, piece, fails) else {
        return Err(Fault::HostMemory);
    };
    let Ok(mut lines) = Lines::new(alloc, 1000) else {
        return Err(Fault::HostMemory);
    };
    let fetched = fetch_all(&mut lines, &mut source, told);
    drop(lines);
    drop(source);
    fetched
}

/// A call that fails is answered at once, and the next one goes on.
#[test]
fn failed_reads_are_answered_at_once(rt: HostRuntime) -> Result<(), Fail> {
    let alloc = rt.alloc();
    let mut told = String::new(alloc);
    fetch(alloc, b"ab\ncde", 2, &[], &mut told)?;
    fetch(alloc, b"ab\ncd", 4, &[1, 2, 4, 5], &mut told)?;
    assert_eq!(rt;
        told.as_str(),
        "ab cde END FAULT FAULT ab FAULT FAULT cd END"
    );
    Ok(())
}

/// Tells how these bytes are pushed, and what the sink has then.
fn push_text(sink: &mut MemSink, bytes: &[u8], told: &mut String) -> Result<(), Fault> {
    match push_all(sink, bytes) {
        Ok(()) => add_word(told, "OK")?,
        Err(_) => add_word(told, "FAULT")?,
    }
    add_word(told, text_of(sink.bytes())?)
}

/// A push that fails is answered at once, and the next one goes on. The sink takes two bytes a call.
#[test]
fn failed_pushes_are_answered_at_once(rt: HostRuntime) -> Result<(), Fail> {
    let alloc = rt.alloc();
    let mut told = String::new(alloc);
    let Ok(mut sink) = MemSink::new(alloc, 1000, 2, &[2, 3]) else {
        return Err(Fail::from("room for a sink"));
    };
    let first = push_text(&mut sink, b"abcd", &mut told);
    let second = push_text(&mut sink, b"efgh", &mut told);
    let third = push_text(&mut sink, b"ijkl", &mut told);
    drop(sink);
    first?;
    second?;
    third?;
    assert_eq!(rt; told.as_str(), "FAULT ab FAULT ab OK abijkl");
    Ok(())
}

/// Tells what is pulled from a reader up to its end.
fn pull_all<S: Source>(source: &mut S, told: &mut String) -> Result<(), Fault> {
    for _ in 0..MOST {
        let mut buf = [0u8; 5];
        match source.pull(&mut buf) {
            Err(_) => add_word(told, "FAULT")?,
            Ok(0) => return add_word(told, "END"),
            Ok(n) => add_word(told, text_of(&buf[..n])?)?,
        }
    }
    Err(Fault::NoForm)
}

/// A read that is interrupted is a fault, and the next one goes on.
#[test]
fn interrupted_reads_go_on(rt: HostRuntime) -> Result<(), Fail> {
    let mut told = String::new(rt.alloc());
    let mut source = ReadSource::new(Interrupted {
        rest: b"abc",
        fails: true,
    });
    pull_all(&mut source, &mut told)?;
    assert_eq!(rt; told.as_str(), "FAULT abc END");
    Ok(())
}

/// Returns whether a push to a writer is answered with success, and what the writer holds and has passed on then is this.
fn is_pushed(writer: &mut Holding, bytes: &[u8], went: bool, held: &[u8], passed: &[u8]) -> bool {
    let pushed = !bytes.is_empty() && WriteSink::new(&mut *writer).push(bytes).is_ok();
    pushed == went && writer.held.as_slice() == held && writer.passed.as_slice() == passed
}

/// A push is flushed, and what was not written is not. The second writer fails to flush, and the third to write.
#[test]
fn pushes_are_flushed(rt: HostRuntime) {
    let alloc = rt.alloc();
    let mut sure = Holding::new(alloc, false, false);
    let is_sure = is_pushed(&mut sure, b"abc", true, b"", b"abc")
        && is_pushed(&mut sure, b"d", true, b"", b"abcd");
    drop(sure);
    let mut unflushed = Holding::new(alloc, false, true);
    let is_held = is_pushed(&mut unflushed, b"de", false, b"de", b"");
    drop(unflushed);
    let mut unwritten = Holding::new(alloc, true, false);
    let is_lost = is_pushed(&mut unwritten, b"f", false, b"", b"");
    drop(unwritten);
    assert!(rt; is_sure && is_held && is_lost);
}

//! How a run ends.

ghost use Rattle.std.specs.Prelude.{◌≡◌};
ghost use Rattle.script_io.specs.Ending.{code_of};

/// The way in which a run ended.
#[derive(Clone, Copy, Debug, PartialEq, Eq)]
pub enum Status {
    /// The script was run to its end.
    Done,
    /// The words of the command line are not those of a run.
    Usage,
    /// The host had too little memory to begin. Nothing was read.
    HostMemory,
    /// Reading the script failed.
    ReadFault,
    /// Writing a reply failed.
    WriteFault,
    /// The script is longer than a run may be.
    ScriptLimit,
}

/// Returns the exit status of the process: 0, 2, 3, 4, 5 and 6 in the order of the variants.
pub fn code(status: Status) -> u8
    ensures { result ≡ code_of status }
{
    match status {
        Status::Done => 0,
        Status::Usage => 2,
        Status::HostMemory => 3,
        Status::ReadFault => 4,
        Status::WriteFault => 5,
        Status::ScriptLimit => 6,
    }
}

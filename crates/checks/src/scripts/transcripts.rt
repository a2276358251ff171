//! Transcripts that are checked.

use super::check;
use std::test::Fail;

/// A script with its replies is legal; where a reply differs, the check names its line.
#[test]
fn transcripts_are_judged(rt: HostRuntime) -> Result<(), Fail> {
    check(
        rt.alloc(),
        "\
== check
# A line, its reply, and what it reads.
> > vmo_create v1 4096
> < OK
> > vmo_read v1 0 1
> < OK 00
LEGAL 2
== check
# another byte
> > vmo_create v1 4096
> < OK
> > vmo_read v1 0 1
> < OK 01
ILLEGAL 4
== check
# a reply is missing at the end
> > vmo_create v1 4096
> < OK
> > vmo_read v1 0 1
ILLEGAL 4
== check
# a reply is missing before the next line of the script
> > vmo_create v1 4096
> > stat
ILLEGAL 2
== check
LEGAL 0
== check
> stat
MALFORMED 1
== check
> < OK
ILLEGAL 1
== check
# What is behind the first bad line is only read.
> < OK
> stat
ILLEGAL 1
== check
# The host may lack memory where a command may want it, and nothing changes then.
> > vmo_create v1 4096
> < HOST_MEMORY
> > vmo_size v1
> < BAD_HANDLE
> > # note
> > stat
> < OK frames=1024 used=0 free=1024 vmos=0
LEGAL 4
== check
# The host may not lack memory for this one.
> > stat
> < HOST_MEMORY
ILLEGAL 2
== check
# Any free place may be told.
> > root_create r1
> < OK
> > vmar_allocate r2 r1 0 4096
> < OK 0x7ff000
LEGAL 2
== check
# It is a whole number of pages.
> > root_create r1
> < OK
> > vmar_allocate r2 r1 0 4096
> < OK 0x7ff800
ILLEGAL 4
== check
# It is in hexadecimal, without leading zeros.
> > root_create r1
> < OK
> > vmar_allocate r2 r1 0 4096
> < OK 0x07ff000
ILLEGAL 4
== check
# A place that is taken may not be told again.
> > root_create r1
> < OK
> > vmar_allocate r2 r1 0 4096
> < OK 0x7ff000
> > vmar_allocate r3 r1 0 4096
> < OK 0x7ff000
ILLEGAL 6
== check
# The check goes on from the place that was told.
> > root_create r1
> < OK
> > vmo_create v1 8192
> < OK
> > vmar_map r1 0 v1 0 8192 rw
> < OK 0x7fe000
> > mem_write r1 0x7fefff 0102
> < OK faults=2
> > maps r1
> < OK 1
> < + 0x7fe000 8192 rw vmo=1 offset=0 region=r1
> > stat
> < OK frames=1024 used=2 free=1022 vmos=1
LEGAL 6
== check
# A line of a run is missing.
> > root_create r1
> < OK
> > vmo_create v1 8192
> < OK
> > vmar_map r1 0 v1 0 8192 rw
> < OK 0x7fe000
> > maps r1
> < OK 1
> > stat
ILLEGAL 9
== check
# A line of a run differs.
> > root_create r1
> < OK
> > vmo_create v1 8192
> < OK
> > vmar_map r1 0 v1 0 8192 rw
> < OK 0x7fe000
> > maps r1
> < OK 1
> < + 0x7fe000 8192 r vmo=1 offset=0 region=r1
ILLEGAL 9
== check
> > vmo_fill v1 0 1 256
> < SYNTAX
> > vmo_fill v1 0 1 255
> < SYNTAX
ILLEGAL 4
",
    )
}

/// Pinned pages keep their frames, and others may move.
#[test]
fn pinned_frames_are_judged(rt: HostRuntime) -> Result<(), Fail> {
    check(
        rt.alloc(),
        "\
== check --frames 4
# A page that is pinned no more may move.
> > vmo_create v1 8192
> < OK
> > vmo_pin p1 v1 0 8192
> < OK 3 1
> > vmo_unpin p1
> < OK
> > vmo_pin p2 v1 0 8192
> < OK 0 3
LEGAL 4
== check --frames 4
# A page that is pinned keeps its frame.
> > vmo_create v1 8192
> < OK
> > vmo_pin p1 v1 0 4096
> < OK 3
> > vmo_pin p2 v1 0 8192
> < OK 3 0
LEGAL 3
== check --frames 4
> > vmo_create v1 8192
> < OK
> > vmo_pin p1 v1 0 4096
> < OK 3
> > vmo_pin p2 v1 0 8192
> < OK 2 0
ILLEGAL 6
== check --frames 4
# It keeps it as long as one pin covers it.
> > vmo_create v1 4096
> < OK
> > vmo_pin p1 v1 0 4096
> < OK 3
> > vmo_pin p2 v1 0 4096
> < OK 3
> > vmo_unpin p1
> < OK
> > vmo_pin p3 v1 0 4096
> < OK 2
ILLEGAL 10
== check --frames 4
# Two pages that are pinned have two frames.
> > vmo_create v1 8192
> < OK
> > vmo_pin p1 v1 0 8192
> < OK 3 3
ILLEGAL 4
== check --frames 4
# A frame is one of the machine's.
> > vmo_create v1 4096
> < OK
> > vmo_pin p1 v1 0 4096
> < OK 4
ILLEGAL 4
== check --frames 4
# There are as many as the pin has pages.
> > vmo_create v1 8192
> < OK
> > vmo_pin p1 v1 0 8192
> < OK 1
ILLEGAL 4
",
    )
}

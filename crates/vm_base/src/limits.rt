//! The sizes and limits of the machine, each in one place: code, clauses and definitions cite these.
//! A `const _` below a constant says once more, in other words, what is known of it, and is proved.

/// The bytes of a page (`ZX_PAGE_SIZE`).
pub const PAGE: u64 = 4096;

/// The bytes of a page, as the length of an array.
pub const PAGE_BYTES: usize = PAGE as usize;

const _: () = prove!(PAGE_BYTES == 1 << 12);

/// The greatest page count of a VMO: 2^36 pages, 2^48 bytes.
pub const VMO_PAGES: u64 = 68719476736;

const _: () = prove!(VMO_PAGES * PAGE == 1 << 48);

/// The greatest number of page frames of a machine.
pub const FRAMES: u32 = 65536;

const _: () = prove!(FRAMES as u64 * PAGE == 1 << 28);

/// The page frames of a machine, if the command line does not say how many.
pub const DEFAULT_FRAMES: u32 = 1024;

const _: () = prove!(DEFAULT_FRAMES as u64 * PAGE == 1 << 22);

/// The most commands of a workload.
pub const WORK_COUNT: u64 = 1000000;

const _: () = prove!(WORK_COUNT == 1000 * 1000);

/// A range of pages, of a VMO or of an address space, ends at or below this page number: 2^52, so that its
/// bytes are numbered by 64 bits.
pub const PAGES_END: u64 = 4503599627370496;

const _: () = prove!(PAGES_END == u64::MAX / PAGE + 1);

/// The first page of a root region, at address 0x200000.
pub const ROOT_FIRST: u64 = 512;

const _: () = prove!(ROOT_FIRST * PAGE == 0x200000);

/// The page behind the last page of a root region, at address 2^56.
pub const ROOT_END: u64 = 17592186044416;

const _: () = prove!(ROOT_END * PAGE == 1 << 56);

/// The most bytes of one read or write command. Wherever they begin, they lie on two pages at most.
pub const DATA_BYTES: usize = 4096;

const _: () = prove!(DATA_BYTES as u64 == PAGE);

/// The most pages of one pin.
pub const PIN_PAGES: usize = 256;

const _: () = prove!(PIN_PAGES as u64 * PAGE == 1 << 20);

/// The number of names of a kind: `v0`, `v1` and so on, and the same of regions and pins.
pub const NAMES: u64 = 4294967296;

const _: () = prove!(NAMES == 1 << 32);

/// Every koid is below this, 2^63, since a script has fewer lines.
pub const KOIDS: u64 = 9223372036854775808;

const _: () = prove!(KOIDS == 1 << 63);

/// The most bytes of a line of a script, without its line feed.
pub const LINE_BYTES: usize = 16384;

const _: () = prove!(LINE_BYTES == 1 << 14);

/// The most bytes of a script.
pub const SCRIPT_BYTES: u64 = 4294967296;

const _: () = prove!(SCRIPT_BYTES == 1 << 32);

/// The greatest page count of a VMO that has a page source, and of each VMO made from one.
pub const SOURCE_PAGES: u64 = 4096;

/// The bytes of such a VMO: 16 MiB at most.
pub const SOURCE_BYTES: u64 = 16777216;

const _: () = prove!(SOURCE_BYTES == SOURCE_PAGES * PAGE && SOURCE_BYTES == 1 << 24);

/// The greatest kind of a page source. The kinds are 0, 1 and 2.
pub const SOURCE_KIND_MAX: u64 = 2;

const _: () = prove!(SOURCE_KIND_MAX + 1 == 3);

/// The most bytes of an input of actors.
pub const INPUT_BYTES: u64 = 65536;

const _: () = prove!(INPUT_BYTES == 1 << 16);

/// The greatest number of an actor. The actors are 0, 1, 2 and 3.
pub const ACTOR_MAX: u32 = 3;

const _: () = prove!(ACTOR_MAX + 1 == 4);

/// The room that a line of a reply and a spelled command are written to, in bytes.
pub const TEXT_ROOM: usize = 16384;

/// Each line of a reply and each spelled command is shorter, in bytes, line feed and all.
pub const TEXT_BYTES: usize = 8300;

const _: () = prove!(TEXT_BYTES <= TEXT_ROOM);

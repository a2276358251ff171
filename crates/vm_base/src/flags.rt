//! The sets of permissions and of map options, with tables written by hand.

ghost use Rattle.std.specs.Prelude.{⊤, [], ◌∷◌, codes};

use bitflags::{Flag, Flags};

/// The permissions of an access (`ZX_VM_PERM_*`). A bit without a name is a right that no region allows.
#[derive(Clone, Copy, Debug, PartialEq, Eq, Hash)]
pub struct Perm(pub u32);

impl Perm {
    /// Reading.
    pub const READ: Perm = Perm(1);
    /// Writing.
    pub const WRITE: Perm = Perm(2);
    /// Executing.
    pub const EXECUTE: Perm = Perm(4);

    const TABLE: &'static [Flag<Perm>] = &[
        Flag {
            name: "READ",
            value: Perm::READ,
        },
        Flag {
            name: "WRITE",
            value: Perm::WRITE,
        },
        Flag {
            name: "EXECUTE",
            value: Perm::EXECUTE,
        },
    ];
}

const _: () = prove!(Perm::READ.0 == 1 << 0);

const _: () = prove!(Perm::WRITE.0 == 1 << 1);

const _: () = prove!(Perm::EXECUTE.0 == 1 << 2);

impl Flags for Perm {
    type Bits = u32;

    ghost use Rattle.vm_base.specs.declared.flags.TheConstants.Perm.{READ, WRITE, EXECUTE};

    ghost exact = { ⊤ };

    ghost table = { (codes "READ", READ.0) ∷ (codes "WRITE", WRITE.0) ∷ (codes "EXECUTE", EXECUTE.0) ∷ [] };

    ghost set_of = { λ p. p.0 };

    fn flags<'a>() -> &'a [Flag<Perm>] {
        Perm::TABLE
    }

    fn bits(&self) -> u32 {
        self.0
    }

    fn from_bits_retain(bits: u32) -> Perm {
        Perm(bits)
    }
}

/// The flags that say how a mapping is placed (`ZX_VM_*`). A bit without a name means nothing.
#[derive(Clone, Copy, Debug, PartialEq, Eq, Hash)]
pub struct MapFlags(pub u32);

impl MapFlags {
    /// At the offset given (`ZX_VM_SPECIFIC`).
    pub const SPECIFIC: MapFlags = MapFlags(1);
    /// At the offset given, in place of what is mapped there (`ZX_VM_SPECIFIC_OVERWRITE`).
    pub const OVERWRITE: MapFlags = MapFlags(2);
    /// Ending at or below the offset given (`ZX_VM_OFFSET_IS_UPPER_LIMIT`).
    pub const UPPER_LIMIT: MapFlags = MapFlags(4);
    /// Past the end of the VMO too (`ZX_VM_ALLOW_FAULTS`).
    pub const ALLOW_FAULTS: MapFlags = MapFlags(8);

    const TABLE: &'static [Flag<MapFlags>] = &[
        Flag {
            name: "SPECIFIC",
            value: MapFlags::SPECIFIC,
        },
        Flag {
            name: "OVERWRITE",
            value: MapFlags::OVERWRITE,
        },
        Flag {
            name: "UPPER_LIMIT",
            value: MapFlags::UPPER_LIMIT,
        },
        Flag {
            name: "ALLOW_FAULTS",
            value: MapFlags::ALLOW_FAULTS,
        },
    ];
}

const _: () = prove!(MapFlags::SPECIFIC.0 == 1 << 0);

const _: () = prove!(MapFlags::OVERWRITE.0 == 1 << 1);

const _: () = prove!(MapFlags::UPPER_LIMIT.0 == 1 << 2);

const _: () = prove!(MapFlags::ALLOW_FAULTS.0 == 1 << 3);

impl Flags for MapFlags {
    type Bits = u32;

    ghost use Rattle.vm_base.specs.declared.flags.TheConstants.MapFlags.{SPECIFIC, OVERWRITE, UPPER_LIMIT, ALLOW_FAULTS};

    ghost exact = { ⊤ };

    ghost table = { (codes "SPECIFIC", SPECIFIC.0) ∷ (codes "OVERWRITE", OVERWRITE.0) ∷ (codes "UPPER_LIMIT", UPPER_LIMIT.0) ∷ (codes "ALLOW_FAULTS", ALLOW_FAULTS.0) ∷ [] };

    ghost set_of = { λ f. f.0 };

    fn flags<'a>() -> &'a [Flag<MapFlags>] {
        MapFlags::TABLE
    }

    fn bits(&self) -> u32 {
        self.0
    }

    fn from_bits_retain(bits: u32) -> MapFlags {
        MapFlags(bits)
    }
}

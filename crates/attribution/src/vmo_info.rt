//! What a VMO holds (`ZX_INFO_VMO`).

ghost use Rattle.std.specs.Prelude.{◌≡◌};
ghost use Rattle.vm_model.specs.Machine.Attribution.{info_at};
ghost use Rattle.vm_model.specs.Machine.State.{State};
ghost use Rattle.vmo_table.specs.Table.{names_of, with_vmos, AreParts, IsNamed};

use crate::counts::count_held;
use page_store::{PageStore, size_of_name};
use vm_model::Info;
use vmo_table::{Target, VmoTable};

/// Returns what a VMO holds (`ZX_INFO_VMO`), told for a name of the table that stands for it. This is the koid, the size
/// of the name in bytes, the pages that are held, sole, shared with another VMO, and charged to the VMO, and its
/// children. A VMO is charged for a frame if no VMO with a lesser koid shows the frame.
pub fn info<P: PageStore>(store: &P, vmos: &VmoTable, t: &Target) -> Info
    requires parts { AreParts (P.content store.now) vmos.now }
    requires named { IsNamed (names_of vmos.now) t.now }
    ensures { (s : State) → result ≡ info_at (with_vmos s (P.content store.now) vmos.now) t.now }
{
    let counts = count_held(store, t.koid);
    Info {
        koid: t.koid,
        size: size_of_name(store, t),
        held: counts.held,
        private_pages: counts.sole,
        shared_pages: counts.shared,
        charged: counts.charged,
        children: vmos.children(t.koid),
    }
}

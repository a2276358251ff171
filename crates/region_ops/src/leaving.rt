//! Entries that are taken out. With each goes a keeper of its VMO. A VMO that nothing keeps any more leaves with its
//! pages.

ghost use Rattle.std.specs.Prelude.{◌≡◌, ℕ, ◌+◌, ◌≤◌, Option, None};
ghost use Rattle.vm_model.specs.declared.space.Entry.{Entry};
ghost use Rattle.vm_model.specs.Space.Table.{with_pages};
ghost use Rattle.mapping_set.specs.Tables.{table_of, mapping_spare, places_of, without_piece, IsPieceOf};
ghost use Rattle.region_ops.specs.Spaces.{without_entries, AreWell, LetsGo};
ghost use Rattle.region_ops.specs.inside.Leaving.{IsTaken};

use mapping_set::{MappingSet, Piece};
use page_store::{PageStore, drop_gone};
use vm_base::{PageNo, RegionName};
use vmo_table::VmoTable;

/// Takes the entries of `count` pages from `first` on out of an address space. If there is room for two pieces more,
/// it wants no memory.
pub(crate) fn clear_range<P: PageStore>(
    store: &mut P,
    vmos: &mut VmoTable,
    maps: &mut MappingSet,
    root: RegionName,
    first: PageNo,
    count: u64,
)
    requires well { AreWell (P.content store.old) vmos.old (table_of maps.old) }
    requires room { 2 ≤ mapping_spare maps.old }
    ensures table { table_of maps.new ≡ with_pages (table_of maps.old) root.0 first (first + count) (λ p. None) }
    ensures gone { LetsGo (P.content store.old) vmos.old (table_of maps.old)
        (P.content store.new) vmos.new (table_of maps.new) }
    ensures spare { mapping_spare maps.old ≤ mapping_spare maps.new + 1 }
    ensures places { places_of maps.new ≡ places_of maps.old }
{
    while let Some(piece) = maps.carve(root, first, count) {
        let_go(store, vmos, piece);
    }
}

/// Takes the entries that belong to a region out of an address space. It wants no memory.
pub(crate) fn clear_region<P: PageStore>(
    store: &mut P,
    vmos: &mut VmoTable,
    maps: &mut MappingSet,
    root: RegionName,
    region: RegionName,
)
    requires well { AreWell (P.content store.old) vmos.old (table_of maps.old) }
    ensures table { table_of maps.new ≡ without_entries (table_of maps.old) root.0 region.0 }
    ensures gone { LetsGo (P.content store.old) vmos.old (table_of maps.old)
        (P.content store.new) vmos.new (table_of maps.new) }
    ensures places { places_of maps.new ≡ places_of maps.old }
{
    while let Some(piece) = maps.drop_region(root, region) {
        let_go(store, vmos, piece);
    }
}

/// Takes away the keepers that the entries of a piece were. The piece is taken out.
fn let_go<P: PageStore>(store: &mut P, vmos: &mut VmoTable, piece: Piece)
    requires taken { IsTaken (P.content store.old) vmos.old piece }
    ensures gone { (table : ℕ → ℕ → Option Entry) (root : ℕ) → IsPieceOf (table root) piece →
        LetsGo (P.content store.old) vmos.old table
        (P.content store.new) vmos.new (without_piece table root piece) }
{
    drop_gone(store, vmos.release(piece.entry.koid, piece.count));
}

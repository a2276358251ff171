//! Where a place begins for a command that asks for one, `vmar_map` or `vmar_allocate`: at the page that was found, or at the
//! address that is told. A checker of a transcript tells it: the address that the transcript has is the only one that it tries.

ghost use Rattle.std.specs.Prelude.{◌≡◌, ◌+◌, ◌*◌, ◌≤◌, ℕ, true, Some, IsSome, ⊤, MatchOption};
ghost use Rattle.vm_base.specs.declared.limits.TheConstants.{PAGE, ROOT_END};
ghost use Rattle.vm_model.specs.Space.Mappings.{IsMapPlace};
ghost use Rattle.mapping_set.specs.Tables.{table_of};
ghost use Rattle.region_tree.specs.Tree.{regions_of, spaces_of};
ghost use Rattle.machine.specs.inside.Fields.{IsCounted};

use crate::tables::Tables;
use region_ops::{Wanted, is_map_place};
use region_tree::Region;
use vm_base::{PageNo, RegionName, in_page, page_of};

/// Returns the first page of a place in a live region, which is `above`: the page that was found, or the one at the address
/// that is told. `None` if no such place begins at that address.
pub(crate) fn first_page(
    tables: &Tables,
    region: RegionName,
    above: Region,
    wanted: Wanted,
    found: PageNo,
    told: Option<u64>,
) -> Option<PageNo>
    requires counted { IsCounted tables.now }
    requires above { regions_of tables.now.regions region.0 ≡ Some above }
    requires live { above.live ≡ true }
    requires end { above.first + above.count ≤ ROOT_END }
    requires found { IsMapPlace (spaces_of (regions_of tables.now.regions) (table_of tables.now.maps)) region.0 wanted.overwriting wanted.fixed wanted.limited wanted.offset
        wanted.count found }
    ensures place { MatchOption result ⊤ (λ first. IsMapPlace (spaces_of (regions_of tables.now.regions) (table_of tables.now.maps)) region.0 wanted.overwriting wanted.fixed
        wanted.limited wanted.offset wanted.count first) }
    ensures told { MatchOption result
        (IsSome told × ((first : ℕ) → told ≡ Some (first * PAGE) → IsMapPlace (spaces_of (regions_of tables.now.regions) (table_of tables.now.maps)) region.0
        wanted.overwriting wanted.fixed wanted.limited wanted.offset wanted.count first → ⊥))
        (λ (first : ℕ). (address : ℕ) → told ≡ Some address → first * PAGE ≡ address) }
{
    let Some(address) = told else {
        return Some(found);
    };
    if in_page(address) != 0 {
        return None;
    }
    let first = page_of(address);
    if !is_map_place(&tables.regions, &tables.maps, region, above, wanted, first) {
        return None;
    }
    Some(first)
}

//! Look-ups and searches in the fields of the tree.

ghost use Rattle.std.specs.Prelude.{◌≡◌, ◌↔◌, ◌+◌, ◌-◌, ◌^◌, ◌≤◌, min, nat_lt, ◌&&◌, true, None, Some, IsSome, IsTrue, ⊤};
ghost use Rattle.std.specs.Option.{MatchOption};
ghost use Rattle.vm_base.specs.declared.limits.TheConstants.{PAGES_END};
ghost use Rattle.balanced_tree.specs.Gaps.{IsFirstGapOrNone};
ghost use Rattle.balanced_tree.specs.Pairs.{with_pair};
ghost use Rattle.pair_map.specs.Maps.{values_of, extents_of};
ghost use Rattle.vm_model.specs.Space.Regions.{end_of, lies_in, reaches_over};
ghost use Rattle.mapping_set.specs.Tables.{table_of, IsClear};
ghost use Rattle.region_tree.specs.Tree.{is_live_region};
ghost use Rattle.region_tree.specs.inside.TreeFields.{ReachesOut, IsBetween, HasNoExtentBetween};

use mapping_set::MappingSet;
use pair_map::{ExtentMap, PairMap};
use vm_base::{PAGES_END, PageNo, RegionName};
use vm_model::Region;

/// Returns a live region.
pub(crate) fn held(regions: &PairMap<Region>, name: RegionName) -> Region
    requires { is_live_region (values_of regions.now 0) name.0 ≡ true }
    ensures region { values_of regions.now 0 name.0 ≡ Some result }
    ensures live { result.live ≡ true }
{
    match regions.find(0, name.0 as u64) {
        Some(region) => region,
        None => unreachable!(),
    }
}

/// Reports whether `count` is at least 1, and all of `count` pages from `first` on are pages of the region.
pub(crate) fn reaches_over(region: Region, first: PageNo, count: u64) -> bool
    requires pages { first + count ≤ PAGES_END }
    requires region { end_of region ≤ PAGES_END }
    ensures { result ≡ (nat_lt first (first + count) && reaches_over first (first + count) region) }
{
    first < first + count && (region.first <= first && first + count <= region.first + region.count)
}

/// Reports whether all pages of a region are among `count` pages from `first` on, which may pass 2^64.
pub(crate) fn lies_in(region: Region, first: PageNo, count: u64) -> bool
    ensures { result ≡ lies_in first (first + count) region }
{
    first <= region.first && region.count <= count && region.first - first <= count - region.count
}

/// Returns the page behind the last page that a place in a region may have, if the place ends at most `limit` pages
/// behind the region's start.
pub(crate) fn end_within(region: Region, limit: u64) -> PageNo
    requires { end_of region ≤ PAGES_END }
    ensures { result ≡ min (min (region.first + limit) (2 ^ 64 - 1)) (end_of region) }
{
    region
        .first
        .saturating_add(limit)
        .min(region.first + region.count)
}

/// Returns the lowest page of `count` pages of a region, which is `above`, that lie below the limit, are in no child of the
/// region and have no entry of it. The children and the entries are asked in turn. Each is asked for a place that is not before
/// the other's.
pub(crate) fn gap_in(
    children: &ExtentMap<RegionName>,
    maps: &MappingSet,
    region: RegionName,
    above: Region,
    count: u64,
    limit: PageNo,
) -> Option<PageNo>
    requires some { 1 ≤ count }
    requires limit { limit ≤ PAGES_END }
    ensures { IsFirstGapOrNone (λ p. IsClear (extents_of children.now region.0) (table_of maps.now)
        above.root.0 region.0 p count) above.first count limit result }
{
    let mut from = above.first;
    'search: loop {
        let Some(apart) = children.first_gap(region.0 as u64, from, count, limit) else {
            return None;
        };
        let Some(bare) = maps.first_gap(above.root, region, apart, count, limit) else {
            return None;
        };
        if bare == apart {
            return Some(apart);
        }
        from = bare;
    }
}

/// Reports whether the child of a region that has this page also has a page before `first` or from `end` on.
pub(crate) fn reaches_out(
    children: &ExtentMap<RegionName>,
    region: RegionName,
    page: PageNo,
    first: PageNo,
    end: PageNo,
) -> bool
    ensures { IsTrue result ↔ ReachesOut (extents_of children.now region.0) page first end }
{
    let _apart = children.len();
    match children.at(region.0 as u64, page) {
        Some((start, extent)) => start < first || end < start + extent.count,
        None => false,
    }
}

/// Returns the first child of a region that has no page but of `count` pages from `first` on.
pub(crate) fn child_in(
    children: &ExtentMap<RegionName>,
    region: RegionName,
    first: PageNo,
    count: u64,
) -> Option<RegionName>
    ensures { MatchOption result (HasNoExtentBetween (extents_of children.now region.0) first (first + count))
        (λ name. IsBetween (extents_of children.now region.0) first (first + count) name.0) }
{
    let _apart = children.len();
    let end = first.saturating_add(count);
    match children.next(region.0 as u64, first) {
        Some((start, extent)) if start + extent.count <= end => Some(extent.value),
        _ => None,
    }
}

/// Takes a region out of the children of its parent, if it has one.
pub(crate) fn leave_parent(children: &mut ExtentMap<RegionName>, region: Region)
    requires { MatchOption region.parent ⊤ (λ parent. IsSome (extents_of children.old parent.0 region.first)) }
    ensures { MatchOption region.parent (extents_of children.new ≡ extents_of children.old)
        (λ parent. extents_of children.new ≡ with_pair (extents_of children.old) parent.0 region.first None) }
{
    match region.parent {
        Some(parent) => {
            let _child = children.remove(parent.0 as u64, region.first);
        }
        None => {}
    }
}

//! What is taken in each region: pieces, and the places that the callers noted, as extents of one list.

ghost use Rattle.std.specs.Prelude.{◌≡◌, ℕ, ◌+◌, ◌≤◌, true, false, None, Some, IsSome};
ghost use Rattle.std.specs.Option.{MatchOption};
ghost use Rattle.balanced_tree.specs.Pairs.{with_pair};
ghost use Rattle.pair_map.specs.Maps.{extents_of, spare_of, IsOpen};
ghost use Rattle.vm_base.specs.declared.limits.TheConstants.{PAGES_END};
ghost use Rattle.mapping_set.specs.Tables.{places_in, with_place};
ghost use Rattle.mapping_set.specs.inside.Taken.{pieces_in, IsMeeting};

use pair_map::ExtentMap;
use vm_base::{PAGES_END, PageNo, RegionName};

/// Puts a place of `count` pages from `first` on into a list. None of these pages is in an extent of the list.
pub(crate) fn hold_place(
    taken: &mut ExtentMap<Option<RegionName>>,
    list: u64,
    first: PageNo,
    count: u64,
    name: RegionName,
)
    requires some { 1 ≤ count }
    requires end { first + count ≤ PAGES_END }
    requires free { IsOpen (extents_of taken.old list) first count }
    requires room { 1 ≤ spare_of taken.old }
    ensures places { places_in (extents_of taken.new) ≡ with_place (places_in (extents_of taken.old)) list first count name }
    ensures pieces { pieces_in (extents_of taken.new) ≡ pieces_in (extents_of taken.old) }
    ensures spare { spare_of taken.new + 1 ≡ spare_of taken.old }
{
    let _apart = taken.len();
    taken.insert(list, first, count, Some(name));
}

/// Takes the place that begins at the page `first` out of a list, if there is one.
pub(crate) fn free_place(taken: &mut ExtentMap<Option<RegionName>>, list: u64, first: PageNo)
    ensures places { places_in (extents_of taken.new) ≡ with_pair (places_in (extents_of taken.old)) list first None }
    ensures pieces { pieces_in (extents_of taken.new) ≡ pieces_in (extents_of taken.old) }
    ensures spare { spare_of taken.old ≤ spare_of taken.new }
{
    if is_place(taken, list, first) {
        taken.remove(list, first);
    }
}

/// Returns whether a place of a list begins at the page `first`.
fn is_place(taken: &ExtentMap<Option<RegionName>>, list: u64, first: PageNo) -> bool
    ensures yes { result ≡ true → IsSome (places_in (extents_of taken.now) list first) }
    ensures no { result ≡ false → places_in (extents_of taken.now) list first ≡ None }
{
    match taken.find(list, first) {
        Some(extent) => extent.value.is_some(),
        None => false,
    }
}

/// Returns the first page of the first piece of a list, and the number of its pages. `None` if and only if the list has no
/// piece. It passes each place before that piece.
pub(crate) fn first_piece(taken: &ExtentMap<Option<RegionName>>, list: u64) -> Option<(PageNo, u64)>
    ensures { MatchOption result ((p : ℕ) → pieces_in (extents_of taken.now) list p ≡ None)
        (λ pair. pieces_in (extents_of taken.now) list pair.0 ≡ Some (record { count = pair.1; value = tt })) }
{
    let _apart = taken.len();
    let mut from = 0;
    'search: while let Some((first, extent)) = taken.next(list, from) {
        if extent.value.is_none() {
            return Some((first, extent.count));
        }
        from = first + 1;
    }
    None
}

/// Takes each place that has one of `count` pages from `first` on out of a list. No piece of the list has one of these
/// pages.
pub(crate) fn clear_places(
    taken: &mut ExtentMap<Option<RegionName>>,
    list: u64,
    first: PageNo,
    count: u64,
)
    requires some { 1 ≤ count }
    requires end { first + count ≤ PAGES_END }
    requires bare { IsOpen (pieces_in (extents_of taken.old) list) first count }
    ensures vacant { IsOpen (extents_of taken.new list) first count }
    ensures pieces { pieces_in (extents_of taken.new) ≡ pieces_in (extents_of taken.old) }
    ensures same { IsOpen (extents_of taken.old list) first count → extents_of taken.new ≡ extents_of taken.old }
    ensures spare { spare_of taken.old ≤ spare_of taken.new }
{
    while let Some(start) = meeting(taken, list, first, count) {
        taken.remove(list, start);
    }
}

/// Returns the first page of an extent of a list that has one of `count` pages from `first` on. `None` if and only if
/// none has, which one look-up tells.
fn meeting(
    taken: &ExtentMap<Option<RegionName>>,
    list: u64,
    first: PageNo,
    count: u64,
) -> Option<PageNo>
    requires some { 1 ≤ count }
    requires end { first + count ≤ PAGES_END }
    ensures { MatchOption result (IsOpen (extents_of taken.now list) first count)
        (IsMeeting (extents_of taken.now list) first count) }
{
    let _apart = taken.len();
    if taken.is_open(list, first, count) {
        return None;
    }
    if let Some((start, _extent)) = taken.at(list, first) {
        return Some(start);
    }
    match taken.next(list, first) {
        Some((start, _extent)) if start < first + count => Some(start),
        _ => None,
    }
}

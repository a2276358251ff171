//! The lists of the translations of each page of a VMO: links in a slab, of which each knows the one before and the one behind.

ghost use Rattle.std.specs.Prelude.{◌≡◌, ◌≢◌, ◌+◌, ◌≤◌, ◌⊎◌, true, false, None, Some, IsSome, IfSome};
ghost use Rattle.slab.specs.Slab.{get, slab_len, ContainsKey, HasRoomFor};
ghost use Rattle.balanced_tree.specs.Pairs.{with_pair};
ghost use Rattle.fault.specs.inside.Pages.{link_numbers, room_left};
ghost use Rattle.vm_model.specs.Space.Readiness.{is_same_frame, frame_number};
ghost use Rattle.fault.specs.Table.{is_translation_of, translations_in};
ghost use Rattle.fault.specs.inside.Lists.{AreLinkedInLists, BeginsList, Holds, place_in_space, place_in, previous_in, next_in, set_in, to_previous, to_next, linked_behind, unlinked, first_after, restricted_beside, room_in};
ghost use Rattle.fault.specs.inside.Walks.{changed_where, dropped};

use crate::frames::have_same_frame;
use crate::page_map::PageMap;
use crate::translation::{Link, Place, Translation};
use slab::Slab;
use vm_base::{Koid, PageNo, RegionName, Tag};
use vm_model::Readiness;

/// Gives the page `place`, which is not translated, a translation. `first` is the first link of the list of the page of the
/// VMO, if that has one. The new link stands behind it, so that the row of the list stays. Otherwise the page of the VMO
/// gets a list. There is room.
pub(crate) fn join(
    places: &mut PageMap,
    lists: &mut PageMap,
    links: &mut Slab<Link>,
    first: Option<usize>,
    translation: Translation,
    place: Place,
)
    requires linked { AreLinkedInLists (link_numbers places.old) (link_numbers lists.old) (get links.old) (slab_len links.old) }
    requires first { link_numbers lists.old translation.entry.koid.0 translation.entry.page ≡ first }
    requires frame { IfSome first (Holds (get links.old) translation.frame) }
    requires absent { link_numbers places.old place.root.0 place.page ≡ None }
    requires room { 1 ≤ room_in places.old lists.old links.old }
    ensures linked { AreLinkedInLists (link_numbers places.new) (link_numbers lists.new) (get links.new) (slab_len links.new) }
    ensures at { translations_in (get links.new) (link_numbers places.new)
        ≡ with_pair (translations_in (get links.old) (link_numbers places.old)) place.root.0 place.page (Some translation) }
    ensures room { room_in places.old lists.old links.old ≤ room_in places.new lists.new links.new + 1 }
{
    match first {
        Some(first) => {
            let link = link_behind(links, first, translation, place);
            places.insert(place.root.0 as u64, place.page, link);
        }
        None => {
            let entry = translation.entry;
            let link = links.insert_reserved(Link {
                translation,
                place,
                previous: None,
                next: None,
            });
            lists.insert(entry.koid.0, entry.page, link);
            places.insert(place.root.0 as u64, place.page, link);
        }
    }
}

/// Forgets the translation of a page that has one: takes its link out of its list, and removes the list if it has no link
/// left.
pub(crate) fn leave(
    places: &mut PageMap,
    lists: &mut PageMap,
    links: &mut Slab<Link>,
    root: RegionName,
    page: PageNo,
)
    requires linked { AreLinkedInLists (link_numbers places.old) (link_numbers lists.old) (get links.old) (slab_len links.old) }
    requires there { IsSome (link_numbers places.old root.0 page) }
    ensures linked { AreLinkedInLists (link_numbers places.new) (link_numbers lists.new) (get links.new) (slab_len links.new) }
    ensures at { translations_in (get links.new) (link_numbers places.new)
        ≡ with_pair (translations_in (get links.old) (link_numbers places.old)) root.0 page None }
    ensures room { room_in places.old lists.old links.old ≤ room_in places.new lists.new links.new }
{
    let at = places.remove(root.0 as u64, page);
    let gone = unlink(links, at);
    lead_on(lists, gone);
}

/// Forgets the translations of a page of a VMO, whose list begins with the link `first`, and removes the list.
pub(crate) fn drop_list(
    places: &mut PageMap,
    lists: &mut PageMap,
    links: &mut Slab<Link>,
    v: Koid,
    page: PageNo,
    first: usize,
)
    requires linked { AreLinkedInLists (link_numbers places.old) (link_numbers lists.old) (get links.old) (slab_len links.old) }
    requires first { link_numbers lists.old v.0 page ≡ Some first }
    ensures linked { AreLinkedInLists (link_numbers places.new) (link_numbers lists.new) (get links.new) (slab_len links.new) }
    ensures lists { link_numbers lists.new v.0 page ≡ None }
    ensures at { translations_in (get links.new) (link_numbers places.new)
        ≡ changed_where dropped (is_translation_of v.0 page (page + 1)) (translations_in (get links.old) (link_numbers places.old)) }
    ensures room { room_in places.old lists.old links.old ≤ room_in places.new lists.new links.new }
{
    let mut at = Some(first);
    while let Some(link) = at {
        let gone = unlink(links, link);
        places.remove(gone.place.root.0 as u64, gone.place.page);
        at = gone.next;
    }
    lists.remove(v.0, page);
}

/// Returns whether a link with this number is there, and is of this page of an address space.
pub(crate) fn is_link_of(links: &Slab<Link>, link: usize, root: RegionName, page: PageNo) -> bool
    ensures { result ≡ true → place_in (get links.now) link ≡ Some (place_in_space root.0 page) }
{
    match links.get(link) {
        Some(it) => it.place.root.0 == root.0 && it.place.page == page,
        None => false,
    }
}

/// Returns whether a link holds this frame, or is alone in its list.
pub(crate) fn may_hold(link: &Link, frame: Option<Tag>) -> bool
    ensures may { result ≡ true → (link.now.translation.frame ≡ frame) ⊎ ((link.now.previous ≡ None) × (link.now.next ≡ None)) }
    ensures other { result ≡ false → is_same_frame (frame_number link.now.translation.frame) (frame_number frame) ≡ false }
{
    if have_same_frame(link.translation.frame, frame) {
        return true;
    }
    match link.previous {
        Some(_) => false,
        None => link.next.is_none(),
    }
}

/// Leaves the translations of a list, which begins with the link `first`, for reading alone.
pub(crate) fn restrict_list(links: &mut Slab<Link>, first: usize)
    requires { BeginsList links.old first }
    ensures links { get links.new ≡ restricted_beside (get links.old) first }
    ensures len { slab_len links.new ≡ slab_len links.old }
    ensures capacity { links.new.capacity ≡ links.old.capacity }
{
    let mut at = Some(first);
    while let Some(link) = at {
        let member = &mut links[link];
        member.translation.readiness = Readiness::Read;
        at = member.next;
    }
}

// Puts a link behind another one, and returns its number.
fn link_behind(
    links: &mut Slab<Link>,
    first: usize,
    translation: Translation,
    place: Place,
) -> usize
    requires room { HasRoomFor links.old 1 }
    requires first { ContainsKey links.old first }
    requires next { IfSome (next_in (get links.old) first) (λ x. ContainsKey links.old x) }
    ensures free { get links.old result ≡ None }
    ensures links { get links.new ≡ linked_behind (get links.old) first result translation place }
    ensures len { slab_len links.new ≡ slab_len links.old + 1 }
    ensures capacity { links.new.capacity ≡ links.old.capacity }
{
    let next = links[first].next;
    let link = links.insert_reserved(Link {
        translation,
        place,
        previous: Some(first),
        next,
    });
    set_next(links, Some(first), Some(link));
    set_previous(links, next, Some(link));
    link
}

// Removes a link, leads the one before it to the one behind it, and back, and returns it.
fn unlink(links: &mut Slab<Link>, at: usize) -> Link
    requires there { ContainsKey links.old at }
    requires previous { IfSome (previous_in (get links.old) at) (λ x. ContainsKey links.old x × (x ≢ at)) }
    requires next { IfSome (next_in (get links.old) at) (λ x. ContainsKey links.old x × (x ≢ at)) }
    ensures link { get links.old at ≡ Some result }
    ensures links { get links.new ≡ unlinked (get links.old) at }
    ensures len { slab_len links.new + 1 ≡ slab_len links.old }
    ensures capacity { links.new.capacity ≡ links.old.capacity }
{
    let gone = links.remove(at);
    set_next(links, gone.previous, gone.next);
    set_previous(links, gone.next, gone.previous);
    gone
}

// Lets the list of a link that went begin with the link behind it, if it was the first. Removes the list if there is none.
fn lead_on(lists: &mut PageMap, gone: Link)
    requires { gone.previous ≡ None → IsSome (link_numbers lists.old gone.translation.entry.koid.0 gone.translation.entry.page) }
    ensures lists { link_numbers lists.new ≡ first_after (link_numbers lists.old) gone }
    ensures room { room_left lists.old ≤ room_left lists.new }
{
    let entry = gone.translation.entry;
    match gone.previous {
        Some(_) => {}
        None => match gone.next {
            Some(next) => lists.replace(entry.koid.0, entry.page, next),
            None => {
                lists.remove(entry.koid.0, entry.page);
            }
        },
    }
}

// Sets what is behind a link, if there is one.
fn set_next(links: &mut Slab<Link>, at: Option<usize>, next: Option<usize>)
    requires { IfSome at (λ x. ContainsKey links.old x) }
    ensures links { get links.new ≡ set_in (to_next next) at (get links.old) }
    ensures len { slab_len links.new ≡ slab_len links.old }
    ensures capacity { links.new.capacity ≡ links.old.capacity }
{
    if let Some(at) = at {
        links[at].next = next;
    }
}

// Sets what is before a link, if there is one.
fn set_previous(links: &mut Slab<Link>, at: Option<usize>, previous: Option<usize>)
    requires { IfSome at (λ x. ContainsKey links.old x) }
    ensures links { get links.new ≡ set_in (to_previous previous) at (get links.old) }
    ensures len { slab_len links.new ≡ slab_len links.old }
    ensures capacity { links.new.capacity ≡ links.old.capacity }
{
    if let Some(at) = at {
        links[at].previous = previous;
    }
}

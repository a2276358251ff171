//! The commands on the mappings in a region: `vmar_map`, `vmar_unmap`, `vmar_protect`, `maps`. Each is refused by
//! `BadHandle` if the region was never given, and by `BadState` if it is destroyed. The pages that show something
//! else, or may be accessed otherwise, are answered.

ghost use Rattle.std.specs.Prelude.{⊤, MatchOption};
ghost use Rattle.vm_model.specs.declared.command.Command.TheVariants as Command;
ghost use Rattle.vm_model.specs.Contents.Content.{Content};
ghost use Rattle.ready_pages.specs.declared.change.Change.{Change};
ghost use Rattle.machine.specs.inside.Fields.{IsCounted};
ghost use Rattle.machine.specs.inside.Steps.{Handles, IsSoundState, Misses};
ghost use Rattle.machine.specs.Machine.{IsAtPlace};

use crate::placing::first_page;
use crate::tables::Tables;
use page_store::PageStore;
use ready_pages::Change;
use region_ops::{MapRequest, RegionRange, SearchedRegion, Wanted, ask_to_map, map_at, piece_at};
use vm_base::{PAGE, Perm, Refusal, RegionName, VmoName, page_count, page_of};
use vm_model::Answer;

/// Maps a part of what a name stands for. `BadHandle` also if the name is not open. If an address is told, the mapping is
/// there. `None`, with nothing changed, if nothing refuses this, but the mapping can't be there.
#[tactic(auto, unfolding(vm_model::specs::Space::Regions::region_of, vm_base::specs::Entries::passes))]
pub(crate) fn vmar_map<P: PageStore>(
    pages: &mut P,
    tables: &mut Tables,
    request: MapRequest<VmoName>,
    told: Option<u64>,
) -> Option<(Answer<'static>, Change)>
    requires { IsSoundState (P.content pages.old) tables.old }
    ensures does { MatchOption result
        (Misses (P.content pages.old) tables.old
        (Command.VmarMap request.region request.offset request.mapped request.vmo_offset request.len request.perm request.flags)
        told (P.content pages.new) tables.new)
        (λ done. Handles (P.content pages.old) tables.old
        (Command.VmarMap request.region request.offset request.mapped request.vmo_offset request.len request.perm request.flags)
        done.0 done.1 (P.content pages.new) tables.new) }
    ensures place { MatchOption result ⊤ (λ done. IsAtPlace
        (Command.VmarMap request.region request.offset request.mapped request.vmo_offset request.len request.perm request.flags)
        told done.0) }
{
    let Some(above) = tables.regions.get(request.region) else {
        return Some((Answer::Refused(Refusal::BadHandle), Change::None));
    };
    let Some(target) = tables.vmos.resolve(request.mapped) else {
        return Some((Answer::Refused(Refusal::BadHandle), Change::None));
    };
    if !above.live {
        return Some((Answer::Refused(Refusal::BadState), Change::None));
    }
    let searched = SearchedRegion {
        region: above,
        noted: true,
    };
    let of = request.of(target);
    let found = match ask_to_map(pages, &tables.regions, &tables.maps, searched, of) {
        Ok(found) => found,
        Err(refusal) => return Some((Answer::Refused(refusal), Change::None)),
    };
    let wanted = Wanted::by(request.flags, request.offset, request.len);
    let first = first_page(tables, request.region, above, wanted, found, told)?;
    let piece = piece_at(above, of, first);
    match map_at(
        pages,
        &mut tables.vmos,
        &mut tables.maps,
        above.root,
        piece,
        wanted.overwriting,
    ) {
        Ok(()) => {
            let change = Change::Mapped {
                root: above.root,
                first,
                end: first + wanted.count,
            };
            Some((Answer::Address(first * PAGE), change))
        }
        Err(_) => Some((Answer::Refused(Refusal::HostMemory), Change::None)),
    }
}

/// Unmaps a range.
pub(crate) fn vmar_unmap<P: PageStore>(
    pages: &mut P,
    tables: &mut Tables,
    range: RegionRange,
) -> (Answer<'static>, Change)
    requires { IsSoundState (P.content pages.old) tables.old }
    ensures { Handles (P.content pages.old) tables.old (Command.VmarUnmap range.region range.addr range.len)
        result.0 result.1 (P.content pages.new) tables.new }
{
    let above = match region_ops::ask_for_region(&tables.regions, range.region) {
        Ok(above) => above,
        Err(refusal) => return (Answer::Refused(refusal), Change::None),
    };
    match region_ops::unmap_in(
        pages,
        &mut tables.vmos,
        &mut tables.regions,
        &mut tables.maps,
        above,
        range,
    ) {
        Ok(()) => {
            let count = page_count(range.len);
            let first = page_of(range.addr);
            let change = Change::Mapped {
                root: above.root,
                first,
                end: first + count,
            };
            (Answer::Done, change)
        }
        Err(refusal) => (Answer::Refused(refusal), Change::None),
    }
}

/// Changes what accesses to a range may do. Each VMO is mapped as often as before.
pub(crate) fn vmar_protect(
    tables: &mut Tables,
    range: RegionRange,
    perm: Perm,
) -> (Answer<'static>, Change)
    requires { IsCounted tables.old }
    ensures { (c : Content) → Handles c tables.old (Command.VmarProtect range.region range.addr range.len perm)
        result.0 result.1 c tables.new }
{
    let above = match region_ops::ask_for_region(&tables.regions, range.region) {
        Ok(above) => above,
        Err(refusal) => return (Answer::Refused(refusal), Change::None),
    };
    match region_ops::protect_in(&tables.regions, &mut tables.maps, above, range, perm) {
        Ok(()) => {
            let count = page_count(range.len);
            let first = page_of(range.addr);
            let change = Change::Mapped {
                root: above.root,
                first,
                end: first + count,
            };
            (Answer::Done, change)
        }
        Err(refusal) => (Answer::Refused(refusal), Change::None),
    }
}

/// Lists the mappings in a region.
#[tactic(auto, unfolding(vm_model::specs::Space::Regions::region_of, vm_base::specs::Entries::passes))]
pub(crate) fn list_maps(tables: &Tables, region: RegionName) -> Answer<'static>
    requires { IsCounted tables.now }
    ensures { (c : Content) → Handles c tables.now (Command.Maps region) result Change.None c tables.now }
{
    let listed = match region_ops::ask_for_region(&tables.regions, region) {
        Ok(listed) => listed,
        Err(refusal) => return Answer::Refused(refusal),
    };
    match attribution::runs_in(
        tables.alloc,
        &tables.maps,
        listed.root,
        listed.first,
        listed.count,
    ) {
        Ok(runs) => Answer::Runs(runs),
        Err(_) => Answer::Refused(Refusal::HostMemory),
    }
}

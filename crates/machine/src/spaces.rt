//! The commands on regions: `root_create`, `vmar_allocate`, `vmar_destroy`.

ghost use Rattle.std.specs.Prelude.{⊤, MatchOption};
ghost use Rattle.vm_model.specs.declared.command.Command.TheVariants as Command;
ghost use Rattle.vm_model.specs.Contents.Content.{Content};
ghost use Rattle.ready_pages.specs.declared.change.Change.{Change};
ghost use Rattle.machine.specs.inside.Fields.{IsCounted};
ghost use Rattle.machine.specs.inside.Steps.{Handles, IsSoundState, Misses};
ghost use Rattle.machine.specs.Machine.{IsAtPlace};

use crate::placing::first_page;
use crate::tables::Tables;
use page_store::PageStore;
use ready_pages::Change;
use region_ops::{AllocateRequest, SearchedRegion, Wanted, allocate_at, ask_to_allocate};
use vm_base::{PAGE, Refusal, RegionName};
use vm_model::Answer;

/// Makes an address space with its root region. `NameInUse` if the name was ever given.
pub(crate) fn root_create(tables: &mut Tables, region: RegionName) -> Answer<'static>
    requires { IsCounted tables.old }
    ensures { (c : Content) → Handles c tables.old (Command.RootCreate region) result Change.None c tables.new }
{
    match region_ops::create_root(&mut tables.regions, &tables.maps, region) {
        Ok(()) => Answer::Done,
        Err(refusal) => Answer::Refused(refusal),
    }
}

/// Allocates a region in another. `BadHandle` if the parent was never given, `NameInUse` if the new name was given,
/// `BadState` if the parent is destroyed. If an address is told, the region is there. `None`, with nothing changed, if nothing
/// refuses this, but the region can't be there.
#[tactic(auto, unfolding(vm_model::specs::Space::Regions::region_of, vm_base::specs::Entries::passes))]
pub(crate) fn vmar_allocate(
    tables: &mut Tables,
    region: RegionName,
    request: AllocateRequest,
    told: Option<u64>,
) -> Option<Answer<'static>>
    requires { IsCounted tables.old }
    ensures does { (c : Content) → MatchOption result
        (Misses c tables.old
        (Command.VmarAllocate region request.parent request.offset request.len request.flags request.caps)
        told c tables.new)
        (λ answer. Handles c tables.old
        (Command.VmarAllocate region request.parent request.offset request.len request.flags request.caps)
        answer Change.None c tables.new) }
    ensures place { MatchOption result ⊤ (λ answer. IsAtPlace
        (Command.VmarAllocate region request.parent request.offset request.len request.flags request.caps)
        told answer) }
{
    let Some(above) = tables.regions.get(request.parent) else {
        return Some(Answer::Refused(Refusal::BadHandle));
    };
    if tables.regions.get(region).is_some() {
        return Some(Answer::Refused(Refusal::NameInUse));
    }
    if !above.live {
        return Some(Answer::Refused(Refusal::BadState));
    }
    let searched = SearchedRegion {
        region: above,
        noted: true,
    };
    let found = match ask_to_allocate(&tables.regions, &tables.maps, searched, request) {
        Ok(found) => found,
        Err(refusal) => return Some(Answer::Refused(refusal)),
    };
    let asked = Wanted::by(request.flags, request.offset, request.len);
    let wanted = Wanted {
        overwriting: false,
        ..asked
    };
    let first = first_page(tables, request.parent, above, wanted, found, told)?;
    match allocate_at(
        &mut tables.regions,
        &mut tables.maps,
        region,
        above,
        request,
        first,
    ) {
        Ok(()) => Some(Answer::Address(first * PAGE)),
        Err(_) => Some(Answer::Refused(Refusal::HostMemory)),
    }
}

/// Destroys a region and all below it. `BadHandle` if it was never given, `BadState` if it is destroyed already. What
/// is mapped in these regions is unmapped.
pub(crate) fn vmar_destroy<P: PageStore>(
    pages: &mut P,
    tables: &mut Tables,
    region: RegionName,
) -> (Answer<'static>, Change)
    requires { IsSoundState (P.content pages.old) tables.old }
    ensures { Handles (P.content pages.old) tables.old (Command.VmarDestroy region) result.0 result.1
        (P.content pages.new) tables.new }
{
    let dying = match region_ops::ask_for_region(&tables.regions, region) {
        Ok(dying) => dying,
        Err(refusal) => return (Answer::Refused(refusal), Change::None),
    };
    region_ops::destroy_in(
        pages,
        &mut tables.vmos,
        &mut tables.regions,
        &mut tables.maps,
        region,
        dying,
    );
    let change = Change::Mapped {
        root: dying.root,
        first: dying.first,
        end: dying.first + dying.count,
    };
    (Answer::Done, change)
}

//! What is mapped in a region (`ZX_INFO_PROCESS_MAPS`).

ghost use Rattle.std.specs.Prelude.{◌≡◌, ◌+◌, ◌^◌, ◌<◌, ◌≤◌, true, List, [], ◌++◌, IsSome, IfOk, MatchResult};
ghost use Rattle.std.specs.Option.{MatchOption};
ghost use Rattle.vm_base.specs.declared.limits.TheConstants.{PAGES_END, ROOT_END};
ghost use Rattle.vm_model.specs.declared.runs.Run.{Run};
ghost use Rattle.vm_model.specs.Space.Mappings.{is_mapped_in, goes_on, run_before, runs_of};
ghost use Rattle.vm_model.specs.Space.Regions.{end_of, region_of};
ghost use Rattle.mapping_set.specs.Tables.{table_of, IsBare, IsFirstPiece};
ghost use Rattle.region_tree.specs.Tree.{regions_of, is_live_region};
ghost use Rattle.attribution.specs.inside.BegunRuns.{begun_before, run_of};

use mapping_set::{MappingSet, Piece};
use region_tree::Regions;
use std::alloc::Global;
use vm_base::{HostMemory, PAGE, PageNo, RegionName};
use vm_model::{Run, Runs};

/// Returns the runs of what is mapped on the pages of a live region (`ZX_INFO_PROCESS_MAPS`), by it or by regions below
/// it, in address order. A run is the longest row of neighbouring pages that show rising pages of one VMO with one
/// permission and are mapped by one region. `HostMemory` if the host has too little memory, and only if some page of
/// the region is mapped.
#[tactic(auto,
// the region of a name
unfolding(vm_model::specs::Space::Regions::region_of, vm_base::specs::Entries::passes))]
pub fn maps(
    alloc: Global,
    regions: &Regions,
    maps: &MappingSet,
    region: RegionName,
) -> Result<Runs, HostMemory>
    requires live { is_live_region (regions_of regions.now) region.0 ≡ true }
    ensures { let above = region_of (regions_of regions.now) region.0 in
        let entries = table_of maps.now above.root.0 in
        MatchResult result (λ runs. runs ≡ runs_of entries above.count above.first)
        (λ lack. is_mapped_in entries above.first (end_of above) ≡ true) }
{
    let Some(above) = regions.get(region) else {
        unreachable!()
    };
    runs_in(alloc, maps, above.root, above.first, above.count)
}

/// Returns the runs of what is mapped on `count` pages of an address space from `first` on, as `maps` lists those of a
/// region that a caller has found. `HostMemory` only where one of them is mapped.
pub fn runs_in(
    alloc: Global,
    maps: &MappingSet,
    root: RegionName,
    first: PageNo,
    count: u64,
) -> Result<Runs, HostMemory>
    requires { first + count ≤ ROOT_END }
    ensures { MatchResult result (λ runs. runs ≡ runs_of (table_of maps.now root.0) count first)
        (λ lack. is_mapped_in (table_of maps.now root.0) first (first + count) ≡ true) }
{
    let end = first + count;
    let mut runs = Runs::new(alloc);
    let mut begun = None;
    let mut at = first;
    while let Some(piece) = piece_before(maps, root, at, end) {
        begun = Some(join(&mut runs, begun, run_of(piece))?);
        at = piece.first + piece.count;
    }
    close(runs, begun)
}

/// Returns the first entries on the pages from `from` to below `end`, as far as they belong to one piece. `None` if and
/// only if there are none.
fn piece_before(maps: &MappingSet, root: RegionName, from: PageNo, end: PageNo) -> Option<Piece>
    ensures { MatchOption result (IsBare (table_of maps.now root.0) from end)
        (IsFirstPiece (table_of maps.now root.0) from end) }
{
    let piece = maps.next_piece(root, from)?;
    if end <= piece.first {
        return None;
    }
    Some(Piece {
        count: piece.count.min(end - piece.first),
        ..piece
    })
}

/// Returns the run of a piece.
fn run_of(piece: Piece) -> Run
    requires some { 1 ≤ piece.count }
    requires end { piece.first + piece.count ≤ ROOT_END }
    requires pages { piece.entry.page + piece.count ≤ PAGES_END }
    ensures { result ≡ run_of piece }
{
    Run {
        addr: piece.first * PAGE,
        len: piece.count * PAGE,
        perm: piece.entry.perm,
        koid: piece.entry.koid,
        offset: piece.entry.page * PAGE,
        region: piece.entry.region,
    }
}

/// Returns whether `next` goes on where `run` ends, in the address space and in the VMO, and is like it in all else. A
/// run may end at byte 2^64 of its VMO. Nothing goes on there.
fn goes_on(run: Run, next: Run) -> bool
    ensures { result ≡ goes_on run next }
{
    run.addr.checked_add(run.len) == Some(next.addr)
        && run.offset.checked_add(run.len) == Some(next.offset)
        && run.koid == next.koid
        && run.perm == next.perm
        && run.region == next.region
}

/// Puts a run behind the one that was begun. If there is none, the run is begun. If the run goes on where the begun one
/// ends, the two are joined. Otherwise the begun one is put behind the others, and the run is begun. Answers the run
/// that is begun now. On `HostMemory` nothing is said of the runs.
fn join(runs: &mut Runs, begun: Option<Run>, next: Run) -> Result<Run, HostMemory>
    requires { next.addr + next.len < 2 ^ 64 }
    ensures { IfOk result (λ run. (rest : List Run) →
        runs.old ++ begun_before begun (run_before next rest) ≡ runs.new ++ run_before run rest) }
{
    let Some(run) = begun else {
        return Ok(next);
    };
    if goes_on(run, next) {
        return Ok(Run {
            len: run.len + next.len,
            ..run
        });
    }
    runs.push(run)?;
    Ok(next)
}

/// Puts the run that was begun, if there is one, behind the others. `HostMemory` only if there is one.
fn close(mut runs: Runs, begun: Option<Run>) -> Result<Runs, HostMemory>
    ensures { MatchResult result (λ all. all ≡ runs ++ begun_before begun []) (λ lack. IsSome begun) }
{
    if let Some(run) = begun {
        runs.push(run)?;
    }
    Ok(runs)
}

//! All pages of the greatest VMO that become zero, at a ledger. A body that went from page to page would not end here.

ghost use Rattle.std.specs.Prelude.{◌≡◌, ◌+◌, ◌<◌, ◌≤◌, Some, IfSome, IsTrue};
ghost use Rattle.vm_base.specs.declared.limits.TheConstants.{VMO_PAGES};
ghost use Rattle.vm_model.specs.Contents.Content.{nothing};
ghost use Rattle.page_store.specs.Held.{held_from};
ghost use Rattle.cow_forest.specs.Store.{forest_content};

use cow_forest::CowForest;
use page_list::Steps;
use page_store::PageStore;
use std::marker::Brand;
use std::sync::ledger::{Blank, Ledger};
use std::test::Fail;
use vm_base::{Koid, PageNo, VMO_PAGES};

/// Owns a page of a VMO of the greatest size, and returns whether there was room. At most one page more is held then.
fn own<P: PageStore>(store: &mut P, v: Koid, page: PageNo) -> bool
    requires vmo { (P.content store.old).count v.0 ≡ Some VMO_PAGES }
    requires page { page < VMO_PAGES }
    ensures vmo { (P.content store.new).count v.0 ≡ Some VMO_PAGES }
    ensures held { held_from (P.content store.new) v.0 0 VMO_PAGES ≤ held_from (P.content store.old) v.0 0 VMO_PAGES + 1 }
{
    if store.reserve(1).is_err() || store.free() == 0 {
        return false;
    }
    store.own(v, page);
    true
}

/// Owns the first and the last page of a VMO of the greatest size that holds none, and makes room to take both away again.
/// Returns whether there was room for all.
fn own_both<P: PageStore>(store: &mut P, v: Koid) -> bool
    requires vmo { (P.content store.old).count v.0 ≡ Some VMO_PAGES }
    requires none { held_from (P.content store.old) v.0 0 VMO_PAGES ≡ 0 }
    ensures vmo { (P.content store.new).count v.0 ≡ Some VMO_PAGES }
    ensures room { IsTrue result → held_from (P.content store.new) v.0 0 VMO_PAGES ≤ P.spare store.new }
{
    if !own(store, v, 0) || !own(store, v, VMO_PAGES - 1) {
        return false;
    }
    store.reserve(2).is_ok()
}

/// Gives a store frames, and makes a VMO of the greatest size in it that holds its first and its last page, with room to take
/// both away.
fn begin<P: PageStore>(store: &mut P) -> Option<Koid>
    requires { P.content store.old ≡ nothing }
    ensures vmo { IfSome result (λ v. (P.content store.new).count v.0 ≡ Some VMO_PAGES) }
    ensures room { IfSome result (λ v. held_from (P.content store.new) v.0 0 VMO_PAGES ≤ P.spare store.new) }
{
    let Ok(()) = store.fill(64) else {
        return None;
    };
    let Ok(v) = store.create(VMO_PAGES) else {
        return None;
    };
    if own_both(store, v) { Some(v) } else { None }
}

/// Makes all pages of a VMO of the greatest size zero, in three steps at most: it is the only one, and there are two rows.
/// Returns whether that is so, and none is held now.
fn zero_all<L: Ledger>(tree: &mut CowForest, v: Koid, steps: &mut Steps<L>) -> bool
    requires vmo { (forest_content tree.old).count v.0 ≡ Some VMO_PAGES }
    requires room { held_from (forest_content tree.old) v.0 0 VMO_PAGES ≤ tree.old.rows.spare }
    ensures { steps.new ≤ steps.old + 3 }
{
    let rows = tree.rows();
    let vmos = tree.vmos();
    if rows != 2 || vmos != 1 {
        return false;
    }
    let hidden = tree.hidden();
    tree.zero_range(v, 0, VMO_PAGES, steps);
    hidden == 0 && tree.next_held(v, 0).is_none() && tree.free() == tree.frames()
}

/// Makes the VMO, and its pages zero.
fn goes<L: Ledger>(tree: &mut CowForest, blank: Blank) -> bool
    requires empty { forest_content tree.old ≡ nothing }
    requires blank { (blank.name ≡ L.name) × (blank.parts ≡ L.parts) × (0 < blank.parts) }
{
    let mut steps = Steps::<L>::new(blank);
    match begin(tree) {
        Some(v) => zero_all(tree, v, &mut steps),
        None => false,
    }
}

#[test]
fn the_greatest_vmo_becomes_zero_in_three_steps(rt: HostRuntime) -> Result<(), Fail> {
    let mut tree = CowForest::new(rt.alloc());
    let gone = goes::<Brand>(&mut tree, Blank::new(1));
    drop(tree);
    assert!(rt; gone);
    Ok(())
}

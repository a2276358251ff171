//! The pages that are pinned, by koid and page number, each with the number of pins that cover it.

ghost use Rattle.std.specs.Prelude.{ℕ, ◌+◌, ◌<◌, ◌≤◌};
ghost use Rattle.vm_base.specs.declared.limits.TheConstants.{PAGES_END, NAMES};
ghost use Rattle.pair_map.specs.Maps.{values_of, spare_of};
ghost use Rattle.pin_table.specs.inside.Pages.{pins_at, AllHavePins, AddsPin};

use pair_map::PairMap;
use vm_base::{Koid, PAGES_END, PageNo};

/// Counts one pin more for a page. There is room for it.
fn pin_page(pages: &mut PairMap<u64>, koid: Koid, page: PageNo)
    requires kept { AllHavePins (values_of pages.old) }
    requires few { pins_at koid.0 page (values_of pages.old) ≤ NAMES }
    requires room { 1 ≤ spare_of pages.old }
    ensures kept { AllHavePins (values_of pages.new) }
    ensures pin { AddsPin (values_of pages.old) (values_of pages.new) koid.0 page (page + 1) }
    ensures spare { spare_of pages.old ≤ spare_of pages.new + 1 }
{
    match pages.find(koid.0, page) {
        Some(pins) => pages.replace(koid.0, page, pins + 1),
        None => pages.insert(koid.0, page, 1),
    }
}

/// Counts one pin more for each of `count` pages of a VMO from `first` on. There is room for them.
pub(crate) fn pin_pages(pages: &mut PairMap<u64>, koid: Koid, first: PageNo, count: u64)
    requires kept { AllHavePins (values_of pages.old) }
    requires few { (p : ℕ) → pins_at koid.0 p (values_of pages.old) ≤ NAMES }
    requires end { first + count ≤ PAGES_END }
    requires room { count ≤ spare_of pages.old }
    ensures kept { AllHavePins (values_of pages.new) }
    ensures pin { AddsPin (values_of pages.old) (values_of pages.new) koid.0 first (first + count) }
{
    for page in first..first + count {
        pin_page(pages, koid, page);
    }
}

/// Counts one pin less for a page that has one.
fn unpin_page(pages: &mut PairMap<u64>, koid: Koid, page: PageNo)
    requires kept { AllHavePins (values_of pages.old) }
    requires pinned { 1 ≤ pins_at koid.0 page (values_of pages.old) }
    ensures kept { AllHavePins (values_of pages.new) }
    ensures pin { AddsPin (values_of pages.new) (values_of pages.old) koid.0 page (page + 1) }
{
    match pages.find(koid.0, page) {
        Some(pins) if pins > 1 => pages.replace(koid.0, page, pins - 1),
        Some(_) => {
            pages.remove(koid.0, page);
        }
        None => {}
    }
}

/// Counts one pin less for each of `count` pages of a VMO from `first` on, which all have one.
pub(crate) fn unpin_pages(pages: &mut PairMap<u64>, koid: Koid, first: PageNo, count: u64)
    requires kept { AllHavePins (values_of pages.old) }
    requires pinned { (p : ℕ) → first ≤ p → p < first + count → 1 ≤ pins_at koid.0 p (values_of pages.old) }
    requires end { first + count ≤ PAGES_END }
    ensures kept { AllHavePins (values_of pages.new) }
    ensures pin { AddsPin (values_of pages.new) (values_of pages.old) koid.0 first (first + count) }
{
    for page in first..first + count {
        unpin_page(pages, koid, page);
    }
}

//! What holds of regions and entries by the definitions alone. Each law is the contract of a function that does
//! nothing.

ghost use Rattle.std.specs.Prelude.{◌≡◌, ◌<◌, ◌≤◌, ℕ, Option, None, Some, true};
ghost use Rattle.vm_model.specs.declared.space.Region.{Region};
ghost use Rattle.vm_model.specs.Contents.Content.{Content};
ghost use Rattle.vm_model.specs.Space.Regions.{AreGoodRegions};
ghost use Rattle.vm_model.specs.Space.AddressSpaces.{Spaces, AreGoodSpaces};
ghost use Rattle.vm_model.specs.Space.Places.{is_free};
ghost use Rattle.region_ops.specs.Holders.{HoldsPage};

/// States that one region at most holds a page of an address space: it is live and has the page, and no live child of it
/// has.
pub fn one_region_holds_a_page()
    ensures { (regions : ℕ → Option Region) (root p n m : ℕ) → AreGoodRegions regions →
        HoldsPage regions root p n → HoldsPage regions root p m → n ≡ m }
{}

/// States that no page of a free place of a live region has an entry, of whichever region.
pub fn a_free_place_has_no_entry()
    ensures { (c : Content) (spaces : Spaces) (name : ℕ) (region : Region) (first end p : ℕ) → AreGoodSpaces c spaces →
        spaces.regions name ≡ Some region → region.live ≡ true → is_free spaces name first end ≡ true →
        first ≤ p → p < end → spaces.table region.root.0 p ≡ None }
{}

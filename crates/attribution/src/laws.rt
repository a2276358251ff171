//! What holds of attribution by the definitions alone. Each law is the contract of a function that does nothing.

ghost use Rattle.std.specs.Prelude.{◌≡◌};
ghost use Rattle.vm_base.specs.Search.{sum_below};
ghost use Rattle.vm_model.specs.Contents.Content.{Content, used, IsGood};
ghost use Rattle.vm_model.specs.Machine.Attribution.{count_pages, is_charged};

/// States that each frame in use is charged to one VMO: the charged pages of all VMOs add up to the frames in use.
pub fn charged_pages_add_up_to_the_frames_in_use()
    ensures { (c : Content) → IsGood c → sum_below c.next (λ v. count_pages c v (is_charged c v)) ≡ used c }
{}

//! Pages: whole pages, and where a byte lies.

ghost use Rattle.std.specs.Prelude.{◌≡◌, ◌≤◌, ◌/◌, ◌%◌, ◌↔◌, IsSome, IfSome};
ghost use Rattle.vm_base.specs.Pages.{rounded};

use crate::limits::PAGE;

/// The number of a page: of a VMO, or of an address space.
pub type PageNo = u64;

/// Rounds `n` bytes up to whole pages, in bytes. `None` if and only if that is over `limit` bytes.
pub fn round_up(n: u64, limit: u64) -> Option<u64>
    ensures fits { IsSome result ↔ (rounded n ≤ limit) }
    ensures value { IfSome result (λ r. r ≡ rounded n) }
{
    let short = n % PAGE;
    let up = if short == 0 { 0 } else { PAGE - short };
    let whole = n.checked_add(up)?;
    if whole <= limit { Some(whole) } else { None }
}

/// Returns how many pages `len` bytes take, from the start of a page on.
pub fn page_count(len: u64) -> u64
    ensures { result ≡ rounded len / PAGE }
{
    len / PAGE + u64::from(len % PAGE != 0)
}

/// Returns the page that holds the byte `at`, both counted from the same place.
pub fn page_of(at: u64) -> PageNo
    ensures { result ≡ at / PAGE }
{
    at / PAGE
}

/// Returns where in its page the byte `at` lies, in bytes from the page's first.
pub fn in_page(at: u64) -> u64
    ensures { result ≡ at % PAGE }
{
    at % PAGE
}

//! The frames and VMOs of the machine.

ghost use Rattle.std.specs.Prelude.{◌≡◌};
ghost use Rattle.vm_model.specs.Machine.Attribution.{stat_of};

use page_store::PageStore;
use vm_model::Stat;

/// Returns how many page frames the machine has, how many of them some VMO shows, how many none shows, and how many VMOs
/// there are (`ZX_INFO_KMEM_STATS`).
pub fn stat<P: PageStore>(store: &P) -> Stat
    ensures { result ≡ stat_of (P.content store.now) }
{
    let frames = store.frames();
    let free = store.free();
    Stat {
        frames,
        used: frames - free,
        free,
        vmos: store.vmos(),
    }
}

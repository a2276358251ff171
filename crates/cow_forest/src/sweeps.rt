//! When the rows that say zero and hide no frame are taken out.

ghost use Rattle.std.specs.Prelude.{◌≡◌, ℕ};
ghost use Rattle.cow_arena.specs.Nodes.{nodes_of};
ghost use Rattle.cow_arena.specs.Forest.{IsForest};
ghost use Rattle.cow_split.specs.Trees.{tree_of};
ghost use Rattle.cow_jump.specs.Jumps.{AreJumps};
ghost use Rattle.cow_fork.specs.Sweeping.{HasSwept};

use cow_arena::CowArena;
use cow_fork::sweep;
use cow_jump::JumpTable;
use frame_pool::FramePool;
use page_list::PageLists;

/// So few rows that say zero are not looked at.
const FEW_ROWS: u64 = 16;

/// When it was last looked whether a sweep is due. Contracts do not see it.
#[derive(Clone, Copy)]
pub(crate) struct Sweeps {
    /// How many rows said zero after the last sweep, or fewer.
    pub kept: u64,
    /// The number of rows beyond which the next look is made.
    pub beyond: u64,
}

impl Sweeps {
    /// Returns how many rows may say zero before a sweep is due, if at least as many may as this.
    fn limit(&self, least: u64) -> u64 {
        self.kept.saturating_mul(2).max(least)
    }

    /// Lowers the number of rows beyond which the next look is made, after rows went.
    pub(crate) fn lower(&mut self, lists: &PageLists) {
        let rows = lists.rows();
        self.beyond = self.beyond.min(rows.saturating_add(rows.max(FEW_ROWS)));
    }
}

/// Takes out the rows that say zero and hide no frame, if it is due. It takes no memory.
#[inline(always)]
pub(crate) fn sweep_when_due(
    arena: &CowArena,
    lists: &mut PageLists,
    frames: &FramePool,
    jumps: &JumpTable,
    sweeps: &mut Sweeps,
)
    requires forest { IsForest (nodes_of arena.now) arena.now.lists }
    requires jumps { (next : ℕ) × AreJumps (tree_of arena.now lists.old) next jumps.now }
    ensures { HasSwept arena.now lists.old lists.new }
{
    if sweeps.beyond < lists.rows() {
        sweep_if_due(arena, lists, frames, jumps, sweeps);
    }
}

/// Does what `sweep_when_due` does, and says when to look again. A sweep is due if more rows say zero than `FEW_ROWS`, than have
/// frames, than twice those that were left the last time, and than there are places for nodes. So each row that says zero pays
/// for looking at six rows and places at most.
#[inline(never)]
fn sweep_if_due(
    arena: &CowArena,
    lists: &mut PageLists,
    frames: &FramePool,
    jumps: &JumpTable,
    sweeps: &mut Sweeps,
)
    requires forest { IsForest (nodes_of arena.now) arena.now.lists }
    requires jumps { (next : ℕ) × AreJumps (tree_of arena.now lists.old) next jumps.now }
    ensures { HasSwept arena.now lists.old lists.new }
{
    // As many rows have a frame as frames are in use.
    let used = frames.frames().saturating_sub(frames.free()) as u64;
    let zeroes = lists.rows().saturating_sub(used);
    sweeps.kept = zeroes.min(sweeps.kept);
    let least = used.max(arena.capacity() as u64).max(FEW_ROWS);
    sweep_beyond(arena, lists, jumps, used, least, sweeps);
    let rows = lists.rows();
    let left = sweeps
        .limit(least)
        .saturating_sub(rows.saturating_sub(used));
    sweeps.beyond = rows.saturating_add(left.max(FEW_ROWS));
}

/// Makes a sweep, if more rows say zero than `least` and than twice those that were left the last time. The other rows have
/// `used` frames.
fn sweep_beyond(
    arena: &CowArena,
    lists: &mut PageLists,
    jumps: &JumpTable,
    used: u64,
    least: u64,
    sweeps: &mut Sweeps,
)
    requires forest { IsForest (nodes_of arena.now) arena.now.lists }
    requires jumps { (next : ℕ) × AreJumps (tree_of arena.now lists.old) next jumps.now }
    ensures { HasSwept arena.now lists.old lists.new }
{
    if lists.rows().saturating_sub(used) <= sweeps.limit(least) {
        return;
    }
    sweep(arena, lists, jumps);
    sweeps.kept = lists.rows().saturating_sub(used);
}

//! Four actors that meet outside the lock, before and after each turn. They can if each runs on a thread of its own, and if the
//! lock is held for one turn alone; no clause speaks of either.

use super::{Run, acted};
use script_io::Status;
use shared_vm::Gate;
use std::sync::atomic::{AtomicBool, AtomicU64, Ordering};
use std::test::Fail;
use std::thread::yield_now;

/// The most times that a gate looks at its flags before it gives up.
const LOOKS: u64 = 20_000_000;

/// The flags of all four actors at one place.
const ALL: u64 = 15;

/// Holds each actor back before a turn until all four have come to it, and until the next one has taken its turn; and after
/// the turn until all four have taken theirs. So a3 takes its turn first each time, and a0 last.
#[derive(Drop)]
struct Meeting {
    /// A bit for each actor at each place: before the first turn, after it, before the second one and so on.
    flags: AtomicU64,
    gave_up: AtomicBool,
}

impl Meeting {
    fn new() -> Meeting {
        Meeting {
            flags: AtomicU64::new(0),
            gave_up: AtomicBool::new(false),
        }
    }

    /// Looks at some flags of a place until all of them are up, or until a gate has given up.
    fn wait_for(&self, wanted: u64, place: u32) {
        let wanted = wanted.wrapping_shl(place);
        for _ in 0..LOOKS {
            let is_up = self.flags.load(Ordering::SeqCst) & wanted == wanted;
            if is_up || self.gave_up.load(Ordering::SeqCst) {
                return;
            }
            yield_now();
        }
        self.gave_up.store(true, Ordering::SeqCst);
    }

    /// Raises the flag of an actor at a place, and waits until those of all four are up.
    fn meet(&self, actor: u32, place: u32) {
        let flag = 1_u64.wrapping_shl(place).wrapping_shl(actor);
        self.flags.fetch_or(flag, Ordering::SeqCst);
        self.wait_for(ALL, place);
    }
}

/// Returns the first bit of the place before a turn. That of the place after it is four bits behind.
fn place_of(index: u64) -> Option<u32> {
    match index {
        0 => Some(0),
        1 => Some(8),
        2 => Some(16),
        _ => None,
    }
}

impl Gate for Meeting {
    fn before(&self, actor: u32, index: u64) {
        if let Some(place) = place_of(index) {
            self.meet(actor, place);
            // The flag of the next actor, behind the turn. None waits for a fifth one.
            self.wait_for(2_u64.wrapping_shl(actor) & ALL, place.wrapping_add(4));
        }
    }

    fn after(&self, actor: u32, index: u64) {
        if let Some(place) = place_of(index) {
            self.meet(actor, place.wrapping_add(4));
        }
    }
}

/// Each makes a VMO, asks for the size of the next actor's, and closes that.
const TASKS: &str = "\
a0 vmo_create v0 4096
a0 vmo_size v1
a0 vmo_close v1
a1 vmo_create v1 8192
a1 vmo_size v2
a1 vmo_close v2
a2 vmo_create v2 12288
a2 vmo_size v3
a2 vmo_close v3
a3 vmo_create v3 16384
a3 vmo_size v0
a3 vmo_close v0
";

/// No gate gives up, all flags are up, and the turns are in the order that the gate holds them to.
#[test]
fn four_actors_meet_outside_the_lock(rt: HostRuntime) -> Result<(), Fail> {
    let gate = Meeting::new();
    let end = acted(&rt, rt.alloc(), &gate, Run::sure("actors", TASKS))?;
    assert_eq!(rt; end.status, Status::Done);
    assert!(rt; !gate.gave_up.load(Ordering::SeqCst));
    assert_eq!(rt; gate.flags.load(Ordering::SeqCst), 0xff_ffff);
    assert_eq!(rt;
        end.written.as_str(),
        "\
a3 OK
a2 OK
a1 OK
a0 OK
a3 OK 4096
a2 OK 16384
a1 OK 12288
a0 OK 8192
a3 OK
a2 OK
a1 OK
a0 OK
"
    );
    Ok(())
}

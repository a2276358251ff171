//! The actors on threads of their own.

ghost use Rattle.std.specs.Prelude.{◌≡◌, ◌≢◌, ◌≤◌, ℕ, length};
ghost use Rattle.vm_base.specs.declared.limits.TheConstants.{ACTOR_MAX};
ghost use Rattle.shared_vm.specs.Journal.{done_by, IsWholeJournal};
ghost use Rattle.shared_vm.specs.Rooms.{IsLegal};
ghost use Rattle.shared_vm.specs.Tasks.{Lists, no_tasks, tasks_of};

use crate::gate::Gate;
use crate::journal::Journal;
use crate::room::Room;
use page_store::PageStore;
use std::marker::{Brand, PhantomData};
use std::sync::{Mutex, Wait};
use std::thread::{Threads, join};

/// Names the frames and the tasks of a room. The call that puts a room under a lock picks them, so that the type of what lies
/// under the lock says which they are.
trait Naming {
    /// The number of page frames that the machine began with.
    ghost frames: { ℕ };

    /// The tasks of the actors.
    ghost lists: { Lists };
}

impl Naming for Brand {
    ghost frames = { 0 };

    ghost lists = { no_tasks };
}

/// The value that lies under the lock. Nothing is known of it when the lock is taken but what its type says.
#[derive(Drop)]
struct Held<N: Naming, P: PageStore, J: Journal> {
    room: Room<P, J>,
    of: PhantomData<N>,
    ghost frames: { room.frames ≡ N.frames },
    ghost lists: { room.lists ≡ N.lists },
}

impl<N: Naming, P: PageStore, J: Journal> Held<N, P, J> {
    /// Does one turn of an actor.
    fn turn(&mut self, actor: u32) -> bool
        requires { actor ≤ ACTOR_MAX }
    {
        self.room.turn(actor)
    }
}

/// Does the tasks of an actor, each under the lock. The lock is not held while the gate is called. It may wait for both, and has no
/// clause: what holds of the room stands in its type.
fn act<N: Naming, R: Wait, P: PageStore, J: Journal, G: Gate>(
    rt: &R,
    gate: &G,
    held: &Mutex<Held<N, P, J>>,
    actor: u32,
)
    requires { actor ≤ ACTOR_MAX }
{
    for index in 0..u64::MAX {
        gate.before(actor, index);
        let more = held.lock(rt).turn(actor);
        gate.after(actor, index);
        if !more {
            break;
        }
    }
}

/// Puts the room under a lock, has each actor act on a thread of its own, and takes the room out when all have ended.
fn act_on<
    N: Naming + Send + Sync,
    R: Threads + Wait + Sync,
    P: PageStore + Send,
    J: Journal + Send,
    G: Gate,
>(rt: &R, gate: &G, room: Room<P, J>) -> Room<P, J>
    requires frames { room.frames ≡ N.frames }
    requires lists { room.lists ≡ N.lists }
    ensures frames { result.frames ≡ room.frames }
    ensures lists { result.lists ≡ room.lists }
{
    let lock: Mutex<Held<N, P, J>> = Mutex::new(Held {
        room,
        of: PhantomData,
    });
    let held = &lock;
    join(
        rt,
        || {
            join(rt, || act(rt, gate, held, 0), || act(rt, gate, held, 1));
        },
        || {
            join(rt, || act(rt, gate, held, 2), || act(rt, gate, held, 3));
        },
    );
    lock.into_inner().room
}

/// Does the turns that an actor has left.
fn finish<P: PageStore, J: Journal>(room: &mut Room<P, J>, actor: u32)
    requires { actor ≤ ACTOR_MAX }
    ensures frames { room.new.frames ≡ room.old.frames }
    ensures lists { room.new.lists ≡ room.old.lists }
    ensures done { done_by actor room.new.journal ≡ length (tasks_of room.new.lists actor) }
    ensures others { (a : ℕ) → a ≢ actor → done_by a room.new.journal ≡ done_by a room.old.journal }
{
    while room.left(actor) > 0 {
        room.turn(actor);
    }
}

/// Has the four actors do all their tasks, each on a thread of its own, and each task under one lock. The gate is called before
/// and after each turn, while the lock is not held. Turns that an actor might leave are done behind the joins, so the journal
/// is whole whatever the actors did.
///
/// The call may wait for the lock, for the gate and for the actors, so it is not proved to end: its clauses hold if it returns.
/// They do not say that the actors run side by side, nor what the gate is called with.
pub fn act_all<R: Threads + Wait + Sync, P: PageStore + Send, J: Journal + Send, G: Gate>(
    rt: &R,
    gate: &G,
    room: Room<P, J>,
) -> Room<P, J>
    ensures frames { result.frames ≡ room.frames }
    ensures lists { result.lists ≡ room.lists }
    ensures whole { IsWholeJournal result.lists result.journal }
    ensures legal { IsLegal P.content result }
{
    let mut room = act_on::<Brand, R, P, J, G>(rt, gate, room);
    finish(&mut room, 0);
    finish(&mut room, 1);
    finish(&mut room, 2);
    finish(&mut room, 3);
    let _legal = room.left(3);
    room
}

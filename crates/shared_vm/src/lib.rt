//! Four actors on threads of their own, on one machine behind one lock.
//!
//! An input gives each of the actors a0 to a3 a list of tasks: `Scripts`. A `Room` has the machine, its store, the tasks, and a
//! journal of what was done; each `Room::turn` does one task and notes the deed. What holds of every room is that its journal
//! is a run of the machine, in which each actor's tasks stand in its own order, and that the machine is what this run led to.
//! `run_actors` reads an input, hands the room to four threads under a lock, and writes the journal.
//!
//! Tasks are the bytes of their lines, which a turn reads and has answered as a line of a script. A room keeps its deeds by a
//! `Journal`: whole, or as notes with the data of all replies in one place.
//!
//! It stands on `vm_core` for the machine, on `page_store` for the store, on `script_io`, `script_text` and `reply_text` for
//! lines and replies, and on `line_server` for the words of the command line. `Scripts` and `Room` know nothing of threads. The
//! program above calls `run_actors`.
#![tactic(auto)]

mod acting;
mod asking;
mod counts;
mod gate;
mod journal;
mod line_room;
mod notes;
mod pending;
mod place;
mod reading;
mod room;
mod running;
mod scripts;
mod task;
mod task_list;
mod writing;

pub use acting::act_all;
pub use gate::{Gate, OpenGate};
pub use journal::Journal;
pub use room::Room;
pub use running::run_actors;
pub use scripts::Scripts;
pub use task::{Deed, Task};

//! The machine that the whole project is proved against, and the plain types that it speaks of.
//!
//! `specs/` is what a reader must believe. It has contents of a page store, owning and writing
//! pages, and the refusals and the step of each command. It also has how a line is read and a reply
//! is spelled, and what a legal run over a script is. `src/` has the types of commands, replies and
//! their byte data, and `laws` states what holds of the definitions alone.
//!
//! It stands on `vm_base`, on `arrayvec` for byte data and on `hex` for the words on hex text. The
//! layers above may use all of it.
#![tactic(auto)]

mod answer;
mod bytes;
mod call;
mod command;
pub mod laws;
mod lent;
mod names;
mod numbers;
mod reply;
mod runs;
mod space;

pub use answer::Answer;
pub use bytes::Bytes4k;
pub use call::Call;
pub use command::{ChildKind, Command};
pub use lent::{LentBytes, LentNumbers};
pub use names::{NameKind, Origin, Target};
pub use numbers::PinNumbers;
pub use reply::{Info, Reply, Stat};
pub use runs::{Run, Runs};
pub use space::{Entry, Readiness, Region};

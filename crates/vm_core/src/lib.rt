//! The machine of the commands: one `Machine` over a store of pages, with translations, and one step for each command.
//!
//! It stands on `machine`, which does the commands, on `fault` for translations and accesses through mappings, and on
//! `page_store`, whose trait it is generic over. Its contract is the step relation of `vm_model`. The layers above make a
//! `Vm` by `Vm::new`, give it commands by `Vm::step` or `Vm::answer`, and know the machine that it stands for over a
//! store.
#![tactic(auto)]

mod vm;

pub use vm::Vm;

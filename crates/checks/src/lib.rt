//! Checks of the whole machine: scripts with the replies that are wanted, runs of actors on threads, and calls of the tables
//! below it.
//!
//! No clause is repeated here. A check shows what no clause can say: that a call which may answer `HostMemory` does its work
//! if there is plenty, that the definitions are those that were meant, by replies from outside, and which of several
//! right answers this machine gives. No other library of the repository has tests. The program has a few of its own, by
//! the call that it makes.
#![tactic(auto)]

#[cfg(test)]
mod actors;
#[cfg(test)]
mod calls;
#[cfg(test)]
mod held;
#[cfg(test)]
mod scripts;

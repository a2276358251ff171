//! The rows under their places.

ghost use Rattle.std.specs.Prelude.{◌≡◌, ◌+◌, ◌-◌, ◌^◌, ◌<◌, ◌≤◌, [], None, Some, OnOk};
ghost use Rattle.slab.specs.Slab.{get, slab_len, ContainsKey, HasRoomFor, Updates};

use crate::steps::Steps;
use slab::Slab;
use std::alloc::{AllocError, Global};
use std::marker::Model;
use std::sync::ledger::Ledger;

/// Rows, each under a place that the slab picks. A place keeps its row until the row is taken. Each call that looks
/// at a row, puts, adds or takes one is one step. No call but `reserve` asks the host for memory.
#[derive(Drop)]
pub struct RowSlab<R> {
    rows: Slab<R>,
}

impl<R> Model for RowSlab<R> {
    ghost use Rattle.slab.specs.Slab.{Slab, slab_code};

    ghost Value = { Slab R };

    ghost coded = { slab_code R.code };

    ghost view = { λ s. s.rows };
}

impl<R: Copy> RowSlab<R> {
    /// Makes a slab with no row and no room.
    pub fn new(alloc: Global) -> RowSlab<R>
        ensures empty { result.slots ≡ [] }
        ensures capacity { result.capacity ≡ 0 }
    {
        RowSlab {
            rows: Slab::new(alloc),
        }
    }

    /// Makes room for `n` rows more. Fails if the host has too little memory; the rows stay as they are on both
    /// answers.
    pub fn reserve(&mut self, n: usize) -> Result<(), AllocError>
        ensures room { OnOk result (HasRoomFor self.new n) }
        ensures slots { self.new.slots ≡ self.old.slots }
        ensures capacity { self.old.capacity ≤ self.new.capacity }
        ensures holds { slab_len self.new ≤ self.new.capacity }
        ensures fits { self.new.capacity < 2 ^ 64 }
    {
        let outcome = self.rows.reserve(n);
        let _capacity = self.rows.capacity();
        outcome
    }

    /// Returns the number of rows.
    pub fn len(&self) -> usize
        ensures { result ≡ slab_len self.now }
    {
        self.rows.len()
    }

    /// Returns how many more rows fit with no memory from the host.
    pub fn spare(&self) -> usize
        ensures { result ≡ self.now.capacity - slab_len self.now }
    {
        self.rows.capacity() - self.rows.len()
    }

    /// Returns the row under a place.
    pub fn row<L: Ledger>(&self, place: usize, steps: &mut Steps<L>) -> R
        requires { ContainsKey self.now place }
        ensures row { get self.now place ≡ Some result }
        ensures step { steps.new ≡ steps.old + 1 }
    {
        steps.tick();
        self.rows[place]
    }

    /// Returns the row under a place, where it stands.
    pub fn look<L: Ledger>(&self, place: usize, steps: &mut Steps<L>) -> &R
        requires { ContainsKey self.now place }
        ensures row { get self.now place ≡ Some result.now }
        ensures step { steps.new ≡ steps.old + 1 }
    {
        steps.tick();
        &self.rows[place]
    }

    /// Puts a row under a place in place of the one there.
    pub fn put<L: Ledger>(&mut self, place: usize, row: R, steps: &mut Steps<L>)
        requires { ContainsKey self.old place }
        ensures updates { Updates self.old self.new place (Some row) }
        ensures len { slab_len self.new ≡ slab_len self.old }
        ensures capacity { self.new.capacity ≡ self.old.capacity }
        ensures step { steps.new ≡ steps.old + 1 }
    {
        steps.tick();
        self.rows[place] = row;
    }

    /// Puts a row under a place that has none, and answers the place.
    pub fn add<L: Ledger>(&mut self, row: R, steps: &mut Steps<L>) -> usize
        requires { HasRoomFor self.old 1 }
        ensures place { result ≡ self.old.vacant_key }
        ensures was_vacant { get self.old result ≡ None }
        ensures updates { Updates self.old self.new result (Some row) }
        ensures len { slab_len self.new ≡ slab_len self.old + 1 }
        ensures capacity { self.new.capacity ≡ self.old.capacity }
        ensures step { steps.new ≡ steps.old + 1 }
    {
        steps.tick();
        self.rows.insert_reserved(row)
    }

    /// Takes the row under a place away, and answers it.
    pub fn take<L: Ledger>(&mut self, place: usize, steps: &mut Steps<L>) -> R
        requires { ContainsKey self.old place }
        ensures row { get self.old place ≡ Some result }
        ensures updates { Updates self.old self.new place None }
        ensures len { slab_len self.new + 1 ≡ slab_len self.old }
        ensures capacity { self.new.capacity ≡ self.old.capacity }
        ensures step { steps.new ≡ steps.old + 1 }
    {
        steps.tick();
        self.rows.remove(place)
    }
}

//! The table of all page lists.

ghost use Rattle.std.specs.Prelude.{◌≡◌, ℕ, ◌+◌, ◌-◌, ◌^◌, ◌%◌, ◌≤◌, ◌<◌, None, Some, Bool, is_some, if◌then◌else◌, OnOk, IsTrue, IsSome, IfSome, IfNone};
ghost use Rattle.std.specs.Int.{bit_at};
ghost use Rattle.std.specs.Option.{option_map};
ghost use Rattle.vm_base.specs.declared.names.Tag.{Tag};
ghost use Rattle.page_list.specs.declared.row.Slot.{Slot};
ghost use Rattle.balanced_tree.specs.Rows.{IsRising};
ghost use Rattle.balanced_tree.specs.Pairs.{with_pair, IsNext};
ghost use Rattle.page_list.specs.Order.{row_functions, slot_of};
ghost use Rattle.page_list.specs.Lists.{slots_of, row_count, page_in};

use crate::filter::Filter;
use crate::row::{ListId, Row, Slot};
use balanced_tree::{BalancedTree, Steps, pair_rank};
use std::alloc::Global;
use std::marker::Model;
use std::sync::ledger::Ledger;
use vm_base::{HostMemory, PageNo};

/// Rows, each under a list and a page. Contracts see which slot each page of each list has (`slots_of`), the number of
/// rows (`row_count`), and `spare`, how many more fit. No call but `reserve` asks the host for memory.
///
/// A step of a counted call is one row that is looked at, put, added or taken. Of `next_counted` a step is the call
/// itself, so that a walk over rows is counted by its rows. No counter is to be handed to both kinds. The other calls
/// do the same and count nothing. No call looks for a row if the filter says that the page or the list has none.
#[derive(Drop)]
pub struct PageLists {
    tree: BalancedTree<Row>,
    /// The filter that says which pages of which lists may have a row. Contracts do not see it.
    filter: Filter,
}

impl Model for PageLists {
    ghost use Rattle.balanced_tree.specs.Rows.{Rows};
    ghost use Rattle.page_list.specs.declared.row.Row.{Row};

    ghost Value = { Rows Row };

    ghost view = { λ l. l.tree };

    ghost use Rattle.page_list.specs.inside.Filter.{AreFiltered};

    ghost invariant = { λ l. AreFiltered l.filter l.tree };
}

impl PageLists {
    /// Makes page lists with no rows and no room.
    pub fn new(alloc: Global) -> PageLists
        ensures slots { slots_of result ≡ λ l p. None }
        ensures count { row_count result ≡ 0 }
        ensures spare { result.spare ≡ 0 }
    {
        PageLists {
            tree: BalancedTree::new(alloc),
            filter: Filter::new(alloc),
        }
    }

    /// Makes room for `n` rows more. Makes the filter anew if it is too small for as many rows, or if many rows went
    /// since the last time. `HostMemory` if the host has too little memory for the rows, or for a filter that has to
    /// grow. A filter that only has bits to clear takes no memory, and is left as it is if the host has no memory for
    /// the rows. The rows stay as they are on both answers, and no room is lost.
    #[inline(always)]
    pub fn reserve(&mut self, n: u64) -> Result<(), HostMemory>
        ensures room { OnOk result (n ≤ self.new.spare) }
        ensures rows { self.new.rows ≡ self.old.rows }
        ensures spare { self.old.spare ≤ self.new.spare }
    {
        if self.is_ready(n) {
            return Ok(());
        }
        self.make_room(n)
    }

    /// Returns whether there is room for `n` rows more, and the filter stays as it is with as many.
    #[inline(always)]
    fn is_ready(&self, n: u64) -> bool
        ensures { IsTrue result → n ≤ self.now.spare }
    {
        n <= self.tree.spare() as u64 && self.filter.suits(n)
    }

    /// Does what `reserve` does, if room has to be asked for or the filter has to be made anew.
    #[inline(never)]
    fn make_room(&mut self, n: u64) -> Result<(), HostMemory>
        ensures room { OnOk result (n ≤ self.new.spare) }
        ensures rows { self.new.rows ≡ self.old.rows }
        ensures spare { self.old.spare ≤ self.new.spare }
    {
        match self.tree.reserve(n as usize) {
            Ok(()) => self.filter.renew(&self.tree, n),
            Err(_) => Err(HostMemory),
        }
    }

    /// Returns the number of rows. They rise by list and page.
    pub fn rows(&self) -> u64
        ensures count { result ≡ row_count self.now }
        ensures rising { IsRising row_functions self.now.rows }
    {
        self.tree.len() as u64
    }

    /// Returns how many more rows fit with no memory from the host.
    pub fn spare(&self) -> u64
        ensures { result ≡ self.now.spare }
    {
        self.tree.spare() as u64
    }

    /// Returns the slot of a page of a list. `None` if and only if the page has no row.
    pub fn find(&self, list: ListId, page: PageNo) -> Option<Slot>
        ensures { result ≡ slots_of self.now list.0 page }
    {
        if !self.filter.may_have(list.0, page) {
            return None;
        }
        slot_in(self.tree.find(pair_rank(list.0, page)))
    }

    /// Returns which pages of a list may have a row, by the page's number modulo 64: bit b is clear only where no page
    /// p with p % 64 = b has one.
    pub fn pages(&self, list: ListId) -> u64
        ensures { (page : ℕ) → bit_at result (page % 64) ≡ 0 → slots_of self.now list.0 page ≡ None }
    {
        self.filter.word(list.0)
    }

    /// Adds a row to a page of a list that has none.
    pub fn insert(&mut self, list: ListId, page: PageNo, slot: Slot)
        requires absent { slots_of self.old list.0 page ≡ None }
        requires room { 1 ≤ self.old.spare }
        ensures slots { slots_of self.new ≡ with_pair (slots_of self.old) list.0 page (Some slot) }
        ensures count { row_count self.new ≡ row_count self.old + 1 }
        ensures spare { self.new.spare + 1 ≡ self.old.spare }
    {
        let _rising = self.tree.len();
        self.tree.insert(Row::new(list, page, slot));
        self.filter.set(list.0, page);
    }

    /// Takes the row of a page of a list out, and answers its slot. The filter stays.
    pub fn remove(&mut self, list: ListId, page: PageNo) -> Slot
        requires { IsSome (slots_of self.old list.0 page) }
        ensures slot { slots_of self.old list.0 page ≡ Some result }
        ensures slots { slots_of self.new ≡ with_pair (slots_of self.old) list.0 page None }
        ensures count { row_count self.new + 1 ≡ row_count self.old }
        ensures spare { self.new.spare ≡ self.old.spare + 1 }
    {
        let _rising = self.tree.len();
        self.filter.note_gone();
        self.tree.remove(pair_rank(list.0, page)).slot
    }

    /// Takes the row of a page of a list out, if it has one, and answers its slot.
    pub fn take(&mut self, list: ListId, page: PageNo) -> Option<Slot>
        ensures slot { result ≡ slots_of self.old list.0 page }
        ensures slots { slots_of self.new ≡ with_pair (slots_of self.old) list.0 page None }
        ensures count { row_count self.new + (if is_some result then 1 else 0) ≡ row_count self.old }
        ensures spare { self.new.spare ≡ self.old.spare + (if is_some result then 1 else 0) }
    {
        if !self.filter.may_have(list.0, page) {
            return None;
        }
        let _rising = self.tree.len();
        let Some(row) = self.tree.take(pair_rank(list.0, page)) else {
            return None;
        };
        self.filter.note_gone();
        Some(row.slot)
    }

    /// Sets both bits of the row of a page of a list, which has a frame.
    pub fn set_bits(&mut self, list: ListId, page: PageNo, left: bool, right: bool)
        requires { (tag : Tag) × (l r : Bool) × (slots_of self.old list.0 page ≡ Some (Slot.Frame tag l r)) }
        ensures slots { (tag : Tag) (l r : Bool) → slots_of self.old list.0 page ≡ Some (Slot.Frame tag l r) →
            slots_of self.new ≡ with_pair (slots_of self.old) list.0 page (Some (Slot.Frame tag left right)) }
        ensures count { row_count self.new ≡ row_count self.old }
        ensures spare { self.new.spare ≡ self.old.spare }
    {
        if let Some(Slot::Frame { tag, .. }) = self.find(list, page) {
            self.replace(list, page, Slot::Frame { tag, left, right });
        }
    }

    /// Gives a page of a list that has a row another slot.
    pub fn replace(&mut self, list: ListId, page: PageNo, slot: Slot)
        requires { IsSome (slots_of self.old list.0 page) }
        ensures slots { slots_of self.new ≡ with_pair (slots_of self.old) list.0 page (Some slot) }
        ensures count { row_count self.new ≡ row_count self.old }
        ensures spare { self.new.spare ≡ self.old.spare }
    {
        let _rising = self.tree.len();
        self.tree.replace(Row::new(list, page, slot));
    }

    /// Returns the least page of a list from `from` on that has a row. `None` if and only if there is none.
    pub fn next(&self, list: ListId, from: PageNo) -> Option<PageNo>
        ensures { IsNext (slots_of self.now list.0) from result }
    {
        if self.filter.word(list.0) == 0 {
            return None;
        }
        let _rising = self.tree.len();
        page_in(list, self.tree.next(pair_rank(list.0, from)))
    }

    /// Takes out the row of the least page of a list from `from` on that has one, and answers the page and its slot.
    /// `None` if and only if there is none.
    pub fn take_next(&mut self, list: ListId, from: PageNo) -> Option<(PageNo, Slot)>
        ensures page { IsNext (slots_of self.old list.0) from (option_map (λ taken. taken.0) result) }
        ensures slot { IfSome result (λ taken. slots_of self.old list.0 taken.0 ≡ Some taken.1) }
        ensures slots { IfSome result (λ taken. slots_of self.new ≡ with_pair (slots_of self.old) list.0 taken.0 None) }
        ensures count { IfSome result (λ taken. row_count self.new + 1 ≡ row_count self.old) }
        ensures spare { IfSome result (λ taken. self.new.spare ≡ self.old.spare + 1) }
        ensures none { IfNone result (self.new ≡ self.old) }
        ensures fits { IfSome result (λ taken. taken.0 < 2 ^ 64) }
    {
        let page = self.next(list, from)?;
        let slot = self.remove(list, page);
        Some((page, slot))
    }

    /// Moves the row of a page of a list to a page of a list that has none.
    pub fn move_row(&mut self, list: ListId, page: PageNo, to_list: ListId, to_page: PageNo)
        requires from { IsSome (slots_of self.old list.0 page) }
        requires to { slots_of self.old to_list.0 to_page ≡ None }
        ensures slots { slots_of self.new ≡ with_pair (with_pair (slots_of self.old) list.0 page None)
            to_list.0 to_page (slots_of self.old list.0 page) }
        ensures count { row_count self.new ≡ row_count self.old }
        ensures spare { self.new.spare ≡ self.old.spare }
    {
        let slot = self.remove(list, page);
        self.insert(to_list, to_page, slot);
    }

    /// Does what `find` does, and counts its steps.
    pub fn find_counted<L: Ledger>(
        &self,
        list: ListId,
        page: PageNo,
        steps: &mut Steps<L>,
    ) -> Option<Slot>
        ensures slot { result ≡ slots_of self.now list.0 page }
        ensures cost { 2 ^ (steps.new - steps.old) ≤ (row_count self.now + 1) ^ 2 }
    {
        if !self.filter.may_have(list.0, page) {
            return None;
        }
        slot_in(self.tree.find_counted(pair_rank(list.0, page), steps))
    }

    /// Does what `next` does, and counts one step for the call, however many rows the call looks at.
    pub fn next_counted<L: Ledger>(
        &self,
        list: ListId,
        from: PageNo,
        steps: &mut Steps<L>,
    ) -> Option<PageNo>
        ensures page { IsNext (slots_of self.now list.0) from result }
        ensures cost { steps.new ≡ steps.old + 1 }
    {
        steps.tick();
        self.next(list, from)
    }

    /// Does what `insert` does, and counts its steps.
    pub fn insert_counted<L: Ledger>(
        &mut self,
        list: ListId,
        page: PageNo,
        slot: Slot,
        steps: &mut Steps<L>,
    )
        requires absent { slots_of self.old list.0 page ≡ None }
        requires room { 1 ≤ self.old.spare }
        ensures slots { slots_of self.new ≡ with_pair (slots_of self.old) list.0 page (Some slot) }
        ensures count { row_count self.new ≡ row_count self.old + 1 }
        ensures spare { self.new.spare + 1 ≡ self.old.spare }
        ensures cost { 2 ^ (steps.new - steps.old) ≤ (row_count self.old + 2) ^ 32 }
    {
        let _rising = self.tree.len();
        self.tree.insert_counted(Row::new(list, page, slot), steps);
        self.filter.set(list.0, page);
    }

    /// Does what `remove` does, and counts its steps.
    pub fn remove_counted<L: Ledger>(
        &mut self,
        list: ListId,
        page: PageNo,
        steps: &mut Steps<L>,
    ) -> Slot
        requires { IsSome (slots_of self.old list.0 page) }
        ensures slot { slots_of self.old list.0 page ≡ Some result }
        ensures slots { slots_of self.new ≡ with_pair (slots_of self.old) list.0 page None }
        ensures count { row_count self.new + 1 ≡ row_count self.old }
        ensures spare { self.new.spare ≡ self.old.spare + 1 }
        ensures cost { 2 ^ (steps.new - steps.old) ≤ (row_count self.old + 2) ^ 32 }
    {
        let _rising = self.tree.len();
        self.filter.note_gone();
        self.tree
            .remove_counted(pair_rank(list.0, page), steps)
            .slot
    }
}

/// Returns the slot of a row, if there is one.
fn slot_in(row: Option<Row>) -> Option<Slot>
    ensures { result ≡ option_map slot_of row }
{
    Some(row?.slot)
}

/// Returns the page of the row that follows, if it is of this list.
fn page_in(list: ListId, next: Option<Row>) -> Option<PageNo>
    ensures page { result ≡ page_in list.0 next }
    ensures fits { IfSome next (λ row. row.page < 2 ^ 64) }
{
    match next {
        Some(row) if row.list == list => Some(row.page),
        _ => None,
    }
}

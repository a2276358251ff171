//! The calls that count their steps, at a ledger and with many rows. A body that went over rows without counting them would
//! take too long here.

ghost use Rattle.std.specs.Prelude.{◌≡◌, ◌<◌};

use page_list::{ListId, PageLists, Slot, Steps};
use std::marker::Brand;
use std::sync::ledger::{Blank, Ledger};

/// The list of the rows.
const LIST: ListId = ListId(1);

/// The number of rows.
const ROWS: u64 = 100_000;

/// Puts a row in, and returns whether that went.
fn put<L: Ledger>(lists: &mut PageLists, page: u64, steps: &mut Steps<L>) -> bool {
    if lists.spare() == 0 || lists.find_counted(LIST, page, steps).is_some() {
        return false;
    }
    lists.insert_counted(LIST, page, Slot::Zero, steps);
    true
}

/// Takes a row out, and returns whether it was there.
fn take<L: Ledger>(lists: &mut PageLists, page: u64, steps: &mut Steps<L>) -> bool {
    match lists.find_counted(LIST, page, steps) {
        None => false,
        Some(_) => lists.remove_counted(LIST, page, steps) == Slot::Zero,
    }
}

/// Puts rows in by rising order, finds each and takes each out, and returns whether all went.
fn goes<L: Ledger>(lists: &mut PageLists, blank: Blank) -> bool
    requires { (blank.name ≡ L.name) × (blank.parts ≡ L.parts) × (0 < blank.parts) }
{
    let mut steps = Steps::<L>::new(blank);
    let mut all = true;
    for page in 0..ROWS {
        all = put(lists, page, &mut steps) && all;
    }
    for page in 0..ROWS {
        all = lists.next_counted(LIST, page, &mut steps) == Some(page) && all;
    }
    for page in 0..ROWS {
        all = take(lists, page, &mut steps) && all;
    }
    all && lists.rows() == 0
}

#[test]
fn many_rows_come_and_go(rt: HostRuntime) {
    let mut lists = PageLists::new(rt.alloc());
    let gone = lists.reserve(ROWS).is_ok() && goes::<Brand>(&mut lists, Blank::new(1));
    drop(lists);
    assert!(rt; gone);
}

//! Pins.

ghost use Rattle.std.specs.Prelude.{◌≡◌, ◌≤◌, Some, None};
ghost use Rattle.std.specs.Option.{option_map};
ghost use Rattle.pin_table.specs.Table.{pin_of, pins_of, pin_room};

use pin_table::PinTable;
use vm_base::{Koid, PageNo, PinName};

/// States that a pin is told as it was added.
#[tactic(auto, unfolding(vm_base::specs::Entries::with_key))]
pub fn a_pin_is_told(table: &mut PinTable) -> Option<(Koid, PageNo, u64)>
    requires pin { pins_of table.old 1 ≡ None }
    requires room { 1 ≤ pin_room table.old }
    ensures { option_map pin_of result ≡ Some (record { koid = 7; first = 3; count = 2 }) }
{
    table.add(PinName(1), Koid(7), 3, 2);
    table.get(PinName(1))
}

/// States that a pin that is removed is told, and is there no more.
#[tactic(auto, unfolding(vm_base::specs::Entries::with_key, vm_base::specs::Entries::without_key))]
pub fn a_removed_pin_is_told(table: &mut PinTable) -> (Koid, PageNo, u64)
    requires pin { pins_of table.old 1 ≡ None }
    requires room { 1 ≤ pin_room table.old }
    ensures told { pin_of result ≡ record { koid = 7; first = 3; count = 2 } }
    ensures gone { pins_of table.new 1 ≡ None }
{
    table.add(PinName(1), Koid(7), 3, 2);
    table.remove(PinName(1))
}

// What a make is told of the new object.
ghost use Rattle.std.specs.Prelude.{◌<◌};

use access::which::Slot;
use things::EntryName;
use things::permits::Permits;

// Its entry's name, which no empty entry has, its permits, and the slot that takes its capability.
#[derive(Clone, Copy, PartialEq, Eq)]
pub struct Order {
    pub name: EntryName,
    pub permits: Permits,
    pub slot: Slot,
    ghost named: { 0 < name.0 },
}

// Where a thing stands in the tables, as docs/TABLES.md shows it, and the three numbers of a capability there.
ghost use Rattle.std.specs.Prelude.{◌≡◌, ◌+◌, ◌≤◌, length};
ghost use Rattle.tables.specs.Layout.{capability_size};
ghost use Rattle.tables.specs.Positions.{slot_pos, place_pos, entry_pos, inner_pos, capability_at};

use crate::sizes;
use crate::which::{Inner, Package, Place, Position, Slot};
use things::{Capability, ObjectNumber};

pub fn slot_pos(p: Package, i: Slot) -> usize
    ensures { result ≡ slot_pos p.number i.number }
{
    sizes::PACKAGE * p.number + (sizes::FIRST_SLOT + sizes::CAPABILITY * i.number)
}

pub fn place_pos(at: Place) -> usize
    ensures { result ≡ place_pos at.maker at.number }
{
    sizes::PACKAGE * at.maker + (sizes::FIRST_PLACE + sizes::PLACE * at.number)
}

pub fn entry_pos(at: Place, j: Position) -> usize
    ensures { result ≡ entry_pos at.maker at.number j.number }
{
    place_pos(at) + (sizes::HEAD + sizes::ENTRY * j.number)
}

pub fn inner_pos(at: Place, j: Inner) -> usize
    ensures { result ≡ inner_pos at.maker at.number j.number }
{
    place_pos(at) + (sizes::HEAD + sizes::CAPABILITY * j.number)
}

// At a position, as its definition has it.
#[tactic(auto, unfolding(tables::specs::Positions::capability_at))]
pub fn capability_at(t: &[u16], k: usize) -> Capability
    requires { k + capability_size ≤ length t.now }
    ensures { result ≡ capability_at t.now k }
{
    Capability {
        object: ObjectNumber(t[k], t[k + 1]),
        rights: t[k + 2],
    }
}

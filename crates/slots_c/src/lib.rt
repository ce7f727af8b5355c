// The two calls on a list of sixteen capability records for C, in an archive: each is the library's of its name, under its
// contract.
#![tactic(auto)]

ghost use Rattle.slots.specs.Slots.{to_restrict, to_drop, Ended};

use things::{Capability, Outcome};

// Slot c gets a's capability, rights a AND b; null gives null.
#[unsafe(no_mangle)]
pub extern "C" fn skawennel_slots_restrict(
    slots: &mut [Capability],
    a: u16,
    b: u16,
    c: u16,
) -> Outcome
    ensures { Ended slots.old (to_restrict a b c) result slots.new }
{
    slots::skawennel_slots_restrict(slots, a, b, c)
}

// Slot a becomes null.
#[unsafe(no_mangle)]
pub extern "C" fn skawennel_slots_drop(slots: &mut [Capability], a: u16) -> Outcome
    ensures { Ended slots.old (to_drop a) result slots.new }
{
    slots::skawennel_slots_drop(slots, a)
}

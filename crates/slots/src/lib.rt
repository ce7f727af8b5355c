// The sixteen slots of one package as a lent list of capability records: restrict and drop on it. A call's numbers are
// passed one by one, as the C functions of `slots_c` take them.
#![tactic(auto)]

ghost use Rattle.std.specs.Prelude.{◌≡◌, is_ok};
ghost use Rattle.rules.specs.Sound.{capability_sound};
ghost use Rattle.slots.specs.Slots.{could_be_issued, slots_sound, to_restrict, to_drop, Ended};
ghost use Rattle.slots.specs.Parts.{judged};

use things::{Answer, Capability, ObjectNumber, Outcome, Refusal};

// Null, or every field in range and the serial not 0.
#[tactic(auto, unfolding(crate::specs::Slots::could_be_issued, rules::specs::Sound::capability_sound))]
fn sound(c: Capability) -> bool
    ensures { result ≡ capability_sound could_be_issued c }
{
    let ObjectNumber(maker, serial) = c.object;
    c.is_null() | ((maker < 8) & (0 < serial) & (c.rights < 256))
}

// There are sixteen records, and each is sound. A fold tests all of them without a branch: with `all`, a call took half as long
// again.
fn all_sound(slots: &[Capability]) -> bool
    ensures { result ≡ slots_sound slots.now }
{
    (slots.len() == 16) & slots.iter().fold(true, |ok, c| ok & sound(*c))
}

// What a call answers, by the list and by whether its numbers are in range.
#[tactic(auto, unfolding(crate::specs::Parts::judged))]
fn judge(slots: &[Capability], in_range: bool) -> Answer
    ensures { result ≡ judged (slots_sound slots.now) in_range }
{
    if !all_sound(slots) {
        return Err(Refusal::BadTables);
    }
    if !in_range {
        return Err(Refusal::BadNumber);
    }
    Ok(0)
}

// Only a call that is done stores anything.
fn is_done(answer: Answer) -> bool
    ensures { result ≡ is_ok answer }
{
    answer.is_ok()
}

// Slot c gets a's capability, rights a AND b; null gives null. The two calls stay apart: one function for both would take a closure,
// and be longer than the two.
#[tactic(auto, using(crate::proofs::Laws::restrict_within, crate::proofs::Laws::restrict_ends))]
pub fn skawennel_slots_restrict(slots: &mut [Capability], a: u16, b: u16, c: u16) -> Outcome
    ensures { Ended slots.old (to_restrict a b c) result slots.new }
{
    let answer = judge(slots, (a < 16) & (b < 256) & (c < 16));
    if is_done(answer) {
        slots[c as usize] = slots[a as usize].restrict(b);
    }
    answer.into()
}

// Slot a becomes null.
#[tactic(auto, using(crate::proofs::Laws::drop_within, crate::proofs::Laws::drop_ends))]
pub fn skawennel_slots_drop(slots: &mut [Capability], a: u16) -> Outcome
    ensures { Ended slots.old (to_drop a) result slots.new }
{
    let answer = judge(slots, a < 16);
    if is_done(answer) {
        slots[a as usize] = Capability::null();
    }
    answer.into()
}

// The sixteen slots by value, as a call leaves them, and its outcome.
#[derive(Clone, Copy)]
pub struct Changed {
    pub slots: [Capability; 16],
    pub outcome: Outcome,
}

// Restrict on slots that are passed by value. One function for both calls would take a closure, and be longer than the two.
pub fn restrict_slots(mut slots: [Capability; 16], a: u16, b: u16, c: u16) -> Changed
    ensures { Ended slots (to_restrict a b c) result.outcome result.slots }
{
    let outcome = skawennel_slots_restrict(&mut slots, a, b, c);
    Changed { slots, outcome }
}

// Drop on slots that are passed by value.
pub fn drop_slot(mut slots: [Capability; 16], a: u16) -> Changed
    ensures { Ended slots (to_drop a) result.outcome result.slots }
{
    let outcome = skawennel_slots_drop(&mut slots, a);
    Changed { slots, outcome }
}

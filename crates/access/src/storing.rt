// Storing in the lent tables: what is stored is a run of numbers from a position on.
ghost use Rattle.std.specs.Prelude.{◌≡◌, false, ◌+◌, ◌<◌, ◌≤◌, length, set, take, drop, replicate, ◌∷◌};
ghost use Rattle.std.proofs.lemmas.List.Edits.{sets};
ghost use Rattle.things.specs.Rights.{null};
ghost use Rattle.things.specs.Kinds.{kind_number};
ghost use Rattle.rules.specs.Machine.{WORDS, empty};
ghost use Rattle.rules.specs.Changes.{set_last, set_slot, set_place, set_entry, set_inner, set_word};
ghost use Rattle.rules.specs.Calls.{entry};
ghost use Rattle.tables.specs.Layout.{inside_size, capability_numbers, entry_numbers};
ghost use Rattle.tables.specs.Positions.{place_pos, word_pos, store};

use crate::positions::{entry_pos, inner_pos, place_pos, slot_pos};
use crate::sizes::{self, Numbers};
use crate::which::{Inner, Package, Place, Position, Slot};
use things::{Capability, EntryName, Kind, ObjectNumber, Offset};

// What is listed under a name in a directory. An empty entry is five numbers too (docs/TABLES.md), so it is an `Entry` and no `None`.
#[derive(Clone, Copy, PartialEq, Eq)]
pub struct Entry {
    pub name: EntryName,
    pub capability: Capability,
    pub distinguished: bool,
}

impl Entry {
    // What stands where no entry is.
    pub fn none() -> Self
        ensures { (result.name.0 ≡ 0) × (result.capability ≡ null) × (result.distinguished ≡ false) }
    {
        Self {
            name: EntryName(0),
            capability: Capability::null(),
            distinguished: false,
        }
    }
}

// What a new object's place records of it: the five numbers of its head, which every kind has. What its kind leaves unused is zero.
#[derive(Clone, Copy, PartialEq, Eq)]
pub struct New {
    pub kind: Kind,
    pub serial: u16,
    pub permits: u16,
    pub of: ObjectNumber,
}

// The numbers of a capability and of an entry. A function each, under the layout's name for it: a `From` could not be cited by that
// name.
#[tactic(auto, unfolding(tables::specs::Layout::capability_numbers))]
fn capability_numbers(c: Capability) -> [u16; sizes::CAPABILITY]
    ensures { result ≡ capability_numbers c }
{
    [c.object.0, c.object.1, c.rights]
}

#[tactic(auto, unfolding(tables::specs::Layout::entry_numbers, tables::specs::Layout::capability_numbers), using(crate::proofs::Stored::flag_is))]
fn entry_numbers(e: Entry) -> [u16; sizes::ENTRY]
    ensures { result ≡ entry_numbers (entry e.name.0 e.capability e.distinguished) }
{
    let c = e.capability;
    [
        e.name.0,
        c.object.0,
        c.object.1,
        c.rights,
        u16::from(e.distinguished),
    ]
}

// The numbers from position k on.
fn put(t: &mut [u16], k: usize, numbers: &[u16])
    requires { k + length numbers.now ≤ length t.old }
    ensures { t.new ≡ sets t.old k numbers.now }
{
    t[k..k + numbers.len()].copy_from_slice(numbers);
}

#[tactic(auto, unfolding(tables::specs::Positions::store))]
pub fn put_last(t: &mut Numbers, p: Package, serial: u16)
    ensures { t.new ≡ store t.old (set_last p.number serial) }
{
    t[sizes::PACKAGE * p.number] = serial;
}

#[tactic(auto, unfolding(tables::specs::Positions::store))]
pub fn put_slot(t: &mut Numbers, p: Package, i: Slot, c: Capability)
    ensures { t.new ≡ store t.old (set_slot p.number i.number c) }
{
    put(t, slot_pos(p, i), &capability_numbers(c));
}

#[tactic(auto, unfolding(tables::specs::Positions::store))]
pub fn put_inner(t: &mut Numbers, at: Place, j: Inner, c: Capability)
    ensures { t.new ≡ store t.old (set_inner at.maker at.number j.number c) }
{
    put(t, inner_pos(at, j), &capability_numbers(c));
}

#[tactic(auto, unfolding(tables::specs::Positions::store))]
pub fn put_entry(t: &mut Numbers, at: Place, j: Position, e: Entry)
    ensures { t.new ≡ store t.old (set_entry at.maker at.number j.number (entry e.name.0 e.capability e.distinguished)) }
{
    put(t, entry_pos(at, j), &entry_numbers(e));
}

// A place by the five numbers of its head, any numbers, with nothing inside.
pub fn put_object(
    t: &mut Numbers,
    at: Place,
    kind: u16,
    serial: u16,
    permits: u16,
    of: ObjectNumber,
)
    ensures { t.new ≡ sets t.old (place_pos at.maker at.number) (kind ∷ serial ∷ permits ∷ of.0 ∷ of.1 ∷ replicate inside_size 0) }
{
    let mut numbers = [0; sizes::PLACE];
    numbers[0] = kind;
    numbers[1] = serial;
    numbers[2] = permits;
    numbers[3] = of.0;
    numbers[4] = of.1;
    put(t, place_pos(at), &numbers);
}

// A place as its object is made, with nothing inside yet.
pub fn put_new_object(t: &mut Numbers, at: Place, new: New)
    ensures { t.new ≡ sets t.old (place_pos at.maker at.number) (kind_number new.kind ∷ new.serial ∷ new.permits ∷ new.of.0 ∷ new.of.1 ∷ replicate inside_size 0) }
{
    put_object(t, at, new.kind.into(), new.serial, new.permits, new.of);
}

// A place that holds nothing any more.
#[tactic(auto, unfolding(tables::specs::Positions::store, tables::specs::Layout::place_numbers))]
pub fn clear_place(t: &mut Numbers, at: Place)
    ensures { t.new ≡ store t.old (set_place at.maker at.number empty) }
{
    put(t, place_pos(at), &[0; sizes::PLACE]);
}

// Into a segment's words.
fn write_word(words: &mut [u16], at: Offset, word: u16)
    requires { at.0 < length words.old }
    ensures { words.new ≡ set words.old at.0 word }
{
    words[at.0 as usize] = word;
}

pub fn put_word(t: &mut Numbers, at: Place, offset: Offset, word: u16)
    requires { offset.0 < WORDS }
    ensures { t.new ≡ store t.old (set_word at.maker at.number offset.0 word) }
{
    let from = place_pos(at) + sizes::HEAD;
    write_word(&mut t[from..from + sizes::WORDS], offset, word);
}

// The words of a segment, as they are before any is stored.
fn words_of(words: &[u16]) -> [u16; sizes::WORDS]
    requires { length words.now ≡ WORDS }
    ensures { result ≡ words.now }
{
    let mut scratch = [0; sizes::WORDS];
    scratch.copy_from_slice(words);
    scratch
}

// Copies n words between segments, or within one: all are read before any is stored.
pub fn copy_words(t: &mut Numbers, from: Place, b: Offset, to: Place, d: Offset, n: u16)
    requires { (b.0 + n ≤ WORDS) × (d.0 + n ≤ WORDS) }
    ensures { t.new ≡ sets t.old (word_pos to.maker to.number d.0) (take n (drop b.0 (take WORDS (drop (word_pos from.maker from.number 0) t.old)))) }
{
    let source = place_pos(from) + sizes::HEAD;
    let scratch = words_of(&t[source..source + sizes::WORDS]);
    let target = place_pos(to) + sizes::HEAD;
    let first = b.0 as usize;
    let copied = &scratch[first..first + n as usize];
    put(&mut t[target..target + sizes::WORDS], d.0 as usize, copied);
}

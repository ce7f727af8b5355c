// Reading and searching in lent tables that are known to be well formed.
ghost use Rattle.std.specs.Prelude.{◌≡◌, ◌+◌, ◌*◌, ◌<◌, get_or};
ghost use Rattle.things.specs.Kinds.{kind_from, kind_number};
ghost use Rattle.things.specs.Rights.{null};
ghost use Rattle.rules.specs.Machine.{PACKAGES, PLACES, ENTRIES, WORDS, SEGMENT, DIRECTORY, EXTENDED, no_entry, last_of, slot_of, inside, kind_of, permits_of, type_of, words_of, inners_of, holds, is_empty, is_used, place_of, empty_place, entry_of, used_entries};
ghost use Rattle.rules.specs.Checks.{is_kind};
ghost use Rattle.access.specs.Shown.{shown, lies_in, listed_in};
ghost use Rattle.access.specs.Search.{FoundIn, FoundAt};

use crate::lent::{Directory, Tables};
use crate::positions::{capability_at, entry_pos, inner_pos, place_pos, slot_pos};
use crate::search::lowest;
use crate::sizes;
use crate::which::{Inner, Package, Place, Position, Slot};
use things::{Capability, EntryName, Kind, ObjectNumber, Offset};

impl<'a> Tables<'a> {
    #[tactic(auto, using(crate::proofs::View::view_last))]
    pub fn last(&self, p: Package) -> u16
        ensures { result ≡ last_of (shown self.now) p.number }
    {
        self.numbers[sizes::PACKAGE * p.number]
    }

    #[tactic(auto, using(crate::proofs::View::view_slot))]
    pub fn slot(&self, p: Package, i: Slot) -> Capability
        ensures { result ≡ slot_of (shown self.now) p.number i.number }
    {
        let numbers = self.numbers;
        capability_at(numbers, slot_pos(p, i))
    }

    // The kind of the object in a place; an empty place has none.
    #[tactic(auto, using(crate::proofs::View::view_kind))]
    pub fn kind(&self, at: Place) -> Option<Kind>
        ensures { result ≡ kind_from (kind_of (inside (shown self.now) at.maker at.number)) }
    {
        Kind::try_from(self.numbers[place_pos(at)]).ok()
    }

    #[tactic(auto, using(crate::proofs::Searching::view_is_kind))]
    pub fn is_kind(&self, at: Place, kind: Kind) -> bool
        ensures { result ≡ is_kind (kind_number kind) (inside (shown self.now) at.maker at.number) }
    {
        self.numbers[place_pos(at)] == u16::from(kind)
    }

    #[tactic(auto, using(crate::proofs::View::view_permits))]
    pub fn permits(&self, at: Place) -> u16
        ensures { result ≡ permits_of (inside (shown self.now) at.maker at.number) }
    {
        self.numbers[place_pos(at) + 2]
    }

    #[tactic(auto, using(crate::proofs::View::view_type))]
    pub fn type_number(&self, at: Place) -> ObjectNumber
        ensures { result ≡ type_of (inside (shown self.now) at.maker at.number) }
    {
        let k = place_pos(at);
        ObjectNumber(self.numbers[k + 3], self.numbers[k + 4])
    }

    #[tactic(auto, using(crate::proofs::View::view_inner))]
    pub fn inner(&self, at: Place, j: Inner) -> Capability
        requires { kind_of (inside (shown self.now) at.maker at.number) ≡ EXTENDED }
        ensures { result ≡ get_or (inners_of (inside (shown self.now) at.maker at.number)) j.number null }
    {
        let numbers = self.numbers;
        capability_at(numbers, inner_pos(at, j))
    }

    #[tactic(auto, using(crate::proofs::View::view_word))]
    pub fn word(&self, at: Place, offset: Offset) -> u16
        requires { (offset.0 < WORDS) × (kind_of (inside (shown self.now) at.maker at.number) ≡ SEGMENT) }
        ensures { result ≡ get_or (words_of (inside (shown self.now) at.maker at.number)) offset.0 0 }
    {
        self.numbers[place_pos(at) + (sizes::HEAD + offset.0 as usize)]
    }

    pub fn directory(&self, at: Place) -> Directory<'a>
        requires { kind_of (inside (shown self.now) at.maker at.number) ≡ DIRECTORY }
        ensures { (result.numbers.now ≡ self.now.numbers.now) × (result.at ≡ at) }
    {
        Directory {
            numbers: self.numbers,
            at,
        }
    }
}

// Searching.
impl Tables<'_> {
    #[tactic(auto, using(crate::proofs::Searching::view_holds))]
    fn holds(&self, at: Place, serial: u16) -> bool
        ensures { result ≡ holds serial (inside (shown self.now) at.maker at.number) }
    {
        let k = place_pos(at);
        (self.numbers[k] != 0) & (self.numbers[k + 1] == serial)
    }

    #[tactic(auto, using(crate::proofs::Searching::view_empty))]
    fn is_empty(&self, at: Place) -> bool
        ensures { result ≡ is_empty (inside (shown self.now) at.maker at.number) }
    {
        self.numbers[place_pos(at)] == 0
    }

    // A package's lowest empty place.
    pub fn empty_place(&self, p: Package) -> Option<Place>
        ensures { FoundIn result p.number (empty_place (shown self.now) p.number) }
    {
        let number = lowest(
            |i|
                requires { i < PLACES }
            { self.is_empty(p.place(i)) },
        )?;
        Some(p.place(number))
    }

    // The place that holds an object, among its maker's.
    pub fn find_place(&self, o: ObjectNumber) -> Option<Place>
        requires { o.0 < PACKAGES }
        ensures { FoundIn result o.0 (place_of (shown self.now) o) }
    {
        let maker = Package {
            number: o.0 as usize,
        };
        let number = lowest(
            |i|
                requires { i < PLACES }
            { self.holds(maker.place(i), o.1) },
        )?;
        Some(maker.place(number))
    }
}

impl Directory<'_> {
    pub fn permits(&self) -> u16
        ensures { result ≡ permits_of (lies_in self.now) }
    {
        let tables = Tables {
            numbers: self.numbers,
        };
        tables.permits(self.at)
    }

    #[tactic(auto, using(crate::proofs::View::view_name))]
    pub fn name(&self, j: Position) -> EntryName
        ensures { result.0 ≡ (get_or (listed_in self.now) j.number no_entry).name }
    {
        EntryName(self.numbers[entry_pos(self.at, j)])
    }

    #[tactic(auto, using(crate::proofs::View::view_listed))]
    pub fn capability(&self, j: Position) -> Capability
        ensures { result ≡ (get_or (listed_in self.now) j.number no_entry).capability }
    {
        let numbers = self.numbers;
        capability_at(numbers, entry_pos(self.at, j) + 1)
    }

    #[tactic(auto, using(crate::proofs::View::view_distinguished))]
    pub fn is_distinguished(&self, j: Position) -> bool
        ensures { result ≡ (get_or (listed_in self.now) j.number no_entry).distinguished }
    {
        self.numbers[entry_pos(self.at, j) + 4] == 1
    }

    // The entry with a name; name 0 finds the lowest empty one.
    pub fn find(&self, name: EntryName) -> Option<Position>
        ensures { FoundAt result (entry_of (lies_in self.now) name.0) }
    {
        let number = lowest(
            |j|
                requires { j < ENTRIES }
            { self.name(Position { number: j }) == name },
        )?;
        Some(Position { number })
    }

    #[tactic(auto, using(crate::proofs::Searching::used_by))]
    pub fn is_used(&self, j: Position) -> bool
        ensures { result ≡ is_used (get_or (listed_in self.now) j.number no_entry) }
    {
        self.name(j).0 != 0
    }

    // How many entries are used. A loop: a chain's closure would have to be told that each position is in range.
    pub fn used(&self) -> u16
        ensures { result ≡ used_entries (lies_in self.now) }
    {
        let mut n = 0;
        for number in 0..sizes::ENTRIES {
            if self.is_used(Position { number }) {
                n += 1;
            }
        }
        n
    }
}

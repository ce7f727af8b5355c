// The checks that calls share: a capability's, and those of a make. Each answers what it finds, or the first refusal.
#![tactic(auto)]

ghost use Rattle.std.specs.Prelude.{◌≡◌, true, ◌++◌};
ghost use Rattle.things.specs.Kinds.{kind_number};
ghost use Rattle.rules.specs.Machine.{DIRECTORY, slot_of, empty_entry};
ghost use Rattle.rules.specs.Sound.{issued, capability_sound};
ghost use Rattle.rules.specs.Checks.{checked};
ghost use Rattle.rules.specs.Calls.{takes_entry, makes_one, made};
ghost use Rattle.access.specs.Shown.{shown, lies_in};
ghost use Rattle.checks.specs.Verdicts.{Judged};
ghost use Rattle.checks.specs.Rooms.{LivesAt, RoomFor};

pub mod room;

use access::lent::{Directory, Tables};
use access::which::{Package, Place, Position, Slot};
use room::Room;
use things::permits::Permits;
use things::{Capability, EntryName, Kind, ObjectNumber, Refusal};

// "Each checked slot goes through 2 to 5." Where the object lives, or why it is refused. That the capability is sound ties it to
// these tables, so it is a clause: no type of a capability alone could hold it.
fn check(t: &Tables, c: Capability, right: u16, kind: Kind) -> Result<Place, Refusal>
    requires { capability_sound (issued (shown t.now)) c ≡ true }
    ensures { Judged result (checked (shown t.now) c right (kind_number kind)) (LivesAt (shown t.now) c.object (kind_number kind)) }
{
    if c.is_null() {
        return Err(Refusal::Empty);
    }
    if !c.has_right(right) {
        return Err(Refusal::NoAbility);
    }
    let Some(at) = t.find_place(c.object) else {
        return Err(Refusal::Gone);
    };
    if !t.is_kind(at, kind) {
        return Err(Refusal::WrongKind);
    }
    Ok(at)
}

pub fn check_slot(t: &Tables, p: Package, a: Slot, right: u16, kind: Kind) -> Result<Place, Refusal>
    ensures { Judged result (checked (shown t.now) (slot_of (shown t.now) p.number a.number) right (kind_number kind)) (LivesAt (shown t.now) (slot_of (shown t.now) p.number a.number).object (kind_number kind)) }
{
    check(t, t.slot(p, a), right, kind)
}

// The same of a directory.
pub fn check_directory<'a>(
    t: &Tables<'a>,
    p: Package,
    a: Slot,
    right: u16,
) -> Result<Directory<'a>, Refusal>
    ensures { Judged result (checked (shown t.now) (slot_of (shown t.now) p.number a.number) right DIRECTORY) (λ d. (d.numbers.now ≡ t.now.numbers.now) × LivesAt (shown t.now) (slot_of (shown t.now) p.number a.number).object DIRECTORY d.at) }
{
    let at = check_slot(t, p, a, right, Kind::Directory)?;
    Ok(t.directory(at))
}

// Where a directory takes a further entry with this name and capability, or why it doesn't.
pub fn entry_spot(d: &Directory, name: EntryName, c: Capability) -> Result<Position, Refusal>
    ensures { Judged result (takes_entry (lies_in d.now) name.0 c) (λ j. j.number ≡ empty_entry (lies_in d.now)) }
{
    if d.find(name).is_some() {
        return Err(Refusal::NameUsed);
    }
    if !c.addable(d.permits()) {
        return Err(Refusal::NotAddable);
    }
    let Some(position) = d.find(EntryName(0)) else {
        return Err(Refusal::NoRoom);
    };
    Ok(position)
}

// What a make by package p with these permits takes, with its entry in this directory; or why there is no room for it.
pub fn make_room(
    t: &Tables,
    p: Package,
    d: &Directory,
    name: EntryName,
    permits: Permits,
) -> Result<Room, Refusal>
    ensures { Judged result (takes_entry (lies_in d.now) name.0 (made (shown t.now) p.number permits.bits) ++ makes_one (shown t.now) p.number) (RoomFor (shown t.now) p d.now) }
{
    // Addable goes by the rights alone, so any object stands in for the one that is to be made.
    let like = Capability::made(ObjectNumber(0, 0), permits);
    let position = entry_spot(d, name, like)?;
    let Some(place) = t.empty_place(p) else {
        return Err(Refusal::NoPlace);
    };
    let last = t.last(p);
    if last == u16::MAX {
        return Err(Refusal::Spent);
    }
    Ok(Room {
        position,
        place,
        serial: last + 1,
    })
}

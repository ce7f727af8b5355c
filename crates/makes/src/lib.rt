// The makes: segment, directory, type and extended object.
#![tactic(auto)]

ghost use Rattle.std.specs.Prelude.{◌≡◌, ◌≢◌, true};
ghost use Rattle.std.proofs.lemmas.List.Edits.{sets};
ghost use Rattle.things.specs.Kinds.{kind_number};
ghost use Rattle.things.specs.Rights.{object, capability, made_rights};
ghost use Rattle.things.specs.declared.Kind.TheVariants.{Extended};
ghost use Rattle.rules.specs.Changes.{set_last, set_entry, set_slot};
ghost use Rattle.rules.specs.Calls.{entry, make, make_object};
ghost use Rattle.tables.specs.Layout.{machine};
ghost use Rattle.tables.specs.Positions.{place_pos, store};
ghost use Rattle.access.specs.Lent.{Lent};
ghost use Rattle.checks.specs.Ends.{Ends};
ghost use Rattle.makes.specs.Makes.{new_body, new_permits, headed};

pub mod order;

use access::lent::Tables;
use access::sizes::Numbers;
use access::storing::{self, Entry, New};
use access::which::{Package, Place, Slot};
use checks::room::Room;
use checks::{check_directory, check_slot, make_room};
use order::Order;
use things::permits::Permits;
use things::{Answer, Capability, Kind, ObjectNumber, rights};

// Stores a new object of package p with what it takes, its capability in an entry of the directory at home and in the slot.
fn put_new(t: &mut Numbers, p: Package, home: Place, room: Room, new: New, order: Order)
    ensures { t.new ≡ store (sets (store (store t.old (set_last p.number room.serial)) (set_entry home.maker home.number room.position.number (entry order.name.0 (capability (object p.number room.serial) (made_rights order.permits.bits)) true))) (place_pos room.place.maker room.place.number) (headed (kind_number new.kind) new.serial new.permits new.of)) (set_slot p.number order.slot.number (capability (object p.number room.serial) (made_rights order.permits.bits))) }
{
    let made = Capability::made(ObjectNumber(p.number as u16, room.serial), order.permits);
    let entry = Entry {
        name: order.name,
        capability: made,
        distinguished: true,
    };
    storing::put_last(t, p, room.serial);
    storing::put_entry(t, home, room.position, entry);
    storing::put_new_object(t, room.place, new);
    storing::put_slot(t, p, order.slot, made);
}

// "Permits are recorded for kinds 2 and 4 only", of which call 7 makes the latter.
fn recorded(kind: Kind, permits: Permits) -> u16
    ensures { result ≡ new_permits (kind_number kind) permits.bits }
{
    match kind {
        Kind::Directory => permits.bits,
        _ => 0,
    }
}

// Calls 4, 5 and 6, by the new object's kind.
pub fn make(t: &mut Numbers, p: Package, kind: Kind, a: Slot, order: Order) -> Answer
    requires lent { Lent t.old }
    requires plain { kind ≢ Extended }
    ensures { Ends (make (new_body (kind_number kind) order.permits.bits) (machine t.old) p.number a.number order.name.0 order.permits.bits order.slot.number) t.old t.new result }
{
    let tables = Tables { numbers: t };
    let directory = check_directory(&tables, p, a, rights::WRITE)?;
    let room = make_room(&tables, p, &directory, order.name, order.permits)?;
    let at = directory.at;
    let new = New {
        kind,
        serial: room.serial,
        permits: recorded(kind, order.permits),
        of: ObjectNumber(0, 0),
    };
    put_new(t, p, at, room, new, order);
    Ok(room.serial)
}

// Call 7. One function for all four would take a type's slot that three of them have not.
pub fn make_object(t: &mut Numbers, p: Package, a: Slot, c: Slot, order: Order) -> Answer
    requires { Lent t.old }
    ensures { Ends (make_object (machine t.old) p.number a.number order.name.0 c.number order.slot.number order.permits.bits) t.old t.new result }
{
    let tables = Tables { numbers: t };
    let home = check_directory(&tables, p, a, rights::WRITE)?;
    check_slot(&tables, p, c, rights::MAKE, Kind::Type)?;
    let room = make_room(&tables, p, &home, order.name, order.permits)?;
    let at = home.at;
    let new = New {
        kind: Kind::Extended,
        serial: room.serial,
        permits: order.permits.bits,
        of: tables.slot(p, c).object,
    };
    put_new(t, p, at, room, new, order);
    Ok(room.serial)
}

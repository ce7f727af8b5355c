// A call by its number, on tables that are known to be well formed.
ghost use Rattle.std.specs.Prelude.{◌≡◌, ◌≢◌, true, ◌<◌};
ghost use Rattle.rules.specs.Machine.{PACKAGES, SLOTS, INNERS};
ghost use Rattle.rules.specs.Step.{row_of, good_numbers, step};
ghost use Rattle.tables.specs.Layout.{machine};
ghost use Rattle.access.specs.Lent.{Lent};
ghost use Rattle.checks.specs.Ends.{Ends};
ghost use Rattle.calls.specs.declared.table.Deed.TheVariants.{Hand};
ghost use Rattle.calls.specs.ByNumber.{deed_number, deed};

use crate::slots;
use crate::table::{Deed, row_takes};
use access::lent::Tables;
use access::sizes::Numbers;
use access::which::{Inner, Package, Slot};
use makes::order::Order;
use makes::{make, make_object};
use things::permits::Permits;
use things::{Answer, Call, EntryName, Kind, Offset, Refusal};

// A function for each type, since the types are kept apart (`access/src/which.rt`).
fn package(n: u16) -> Package
    requires { n < PACKAGES }
    ensures { result.number ≡ n }
{
    Package { number: n as usize }
}

fn slot(n: u16) -> Slot
    requires { n < SLOTS }
    ensures { result.number ≡ n }
{
    Slot { number: n as usize }
}

fn inner(n: u16) -> Inner
    requires { n < INNERS }
    ensures { result.number ≡ n }
{
    Inner { number: n as usize }
}

// What a make is told: its entry's name, the permits, and the slot for the capability.
fn order(name: u16, permits: u16, n: u16) -> Order
    requires { (0 < name) × (permits < 4) × (n < SLOTS) }
    ensures { (result.name.0 ≡ name) × (result.permits.bits ≡ permits) × (result.slot.number ≡ n) }
{
    Order {
        name: EntryName(name),
        permits: Permits { bits: permits },
        slot: slot(n),
    }
}

// What a package's call does once its numbers are good. `Hand` does not come here: it names no slot of its caller.
fn obey_package(t: &mut Numbers, p: Package, a: Slot, which: Deed, x: Call) -> Answer
    requires lent { Lent t.old }
    requires numbered { x.number ≡ deed_number which }
    requires good { good_numbers (row_of x.number) x ≡ true }
    requires taken { (p.number ≡ x.caller) × (a.number ≡ x.a) }
    requires no_hand { which ≢ Hand }
    ensures { Ends (deed (machine t.old) x) t.old t.new result }
{
    let Call { b, c, d, e, .. } = x;
    match which {
        Deed::Restrict => slots::restrict(t, p, a, b, slot(c)),
        Deed::Drop => slots::drop(t, p, a),
        Deed::Hand => unreachable!(),
        Deed::MakeSegment => make(t, p, Kind::Segment, a, order(b, c, d)),
        Deed::MakeDirectory => make(t, p, Kind::Directory, a, order(b, c, d)),
        Deed::MakeType => make(t, p, Kind::Type, a, order(b, c, d)),
        Deed::MakeObject => make_object(t, p, a, slot(c), order(b, e, d)),
        Deed::Delete => directories::delete(t, p, a, EntryName(b)),
        Deed::AddEntry => directories::add_entry(t, p, a, EntryName(b), slot(c)),
        Deed::DropEntry => directories::drop_entry(t, p, a, EntryName(b)),
        Deed::Fetch => directories::fetch(t, p, a, EntryName(b), slot(c)),
        Deed::Read => segments::read(&Tables { numbers: t }, p, a, Offset(b)),
        Deed::Write => segments::write(t, p, a, Offset(b), c),
        Deed::Copy => segments::copy(t, p, a, Offset(b), slot(c), Offset(d), e),
        Deed::SetInner => objects::set_inner(t, p, a, slot(b), inner(c), slot(d)),
        Deed::GetInner => objects::get_inner(t, p, a, slot(b), inner(c), slot(d)),
        Deed::Count => directories::count(&Tables { numbers: t }, p, a),
    }
}

// What a call does once its numbers are good. All but the host's name a slot of the caller first.
fn obey(t: &mut Numbers, which: Deed, x: Call) -> Answer
    requires lent { Lent t.old }
    requires numbered { x.number ≡ deed_number which }
    requires good { good_numbers (row_of x.number) x ≡ true }
    ensures { Ends (deed (machine t.old) x) t.old t.new result }
{
    match which {
        Deed::Hand => slots::hand(t, package(x.a), slot(x.b), package(x.c), slot(x.d)),
        _ => obey_package(t, package(x.caller), slot(x.a), which, x),
    }
}

// A call on tables that are known to be well formed, which they are again after it.
pub fn step_formed(t: &mut Numbers, x: Call) -> Answer
    requires { Lent t.old }
    ensures { Ends (step (machine t.old) x) t.old t.new result }
{
    let which = Deed::try_from(x.number)?;
    if !row_takes(which, x) {
        return Err(Refusal::BadNumber);
    }
    obey(t, which, x)
}

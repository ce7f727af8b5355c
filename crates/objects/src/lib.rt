// Calls on extended objects: set inner and get inner.
#![tactic(auto)]

ghost use Rattle.rules.specs.Machine.{EXTENDED, slot_of};
ghost use Rattle.rules.specs.Calls.{opens, set_inner_place, get_inner_place};
ghost use Rattle.tables.specs.Layout.{machine};
ghost use Rattle.access.specs.Lent.{Lent};
ghost use Rattle.access.specs.Shown.{shown};
ghost use Rattle.checks.specs.Ends.{Ends};
ghost use Rattle.checks.specs.Verdicts.{Judged};
ghost use Rattle.checks.specs.Rooms.{LivesAt};

use access::lent::Tables;
use access::sizes::Numbers;
use access::storing;
use access::which::{Inner, Package, Place, Slot};
use checks::check_slot;
use things::{Answer, Kind, Refusal, rights};

// Slot a's type opens the object that slot b names: where that lives, or the refusal.
fn check_opens(t: &Tables, p: Package, a: Slot, b: Slot) -> Result<Place, Refusal>
    ensures { Judged result (opens (shown t.now) p.number a.number b.number) (LivesAt (shown t.now) (slot_of (shown t.now) p.number b.number).object EXTENDED) }
{
    check_slot(t, p, a, rights::OPEN, Kind::Type)?;
    let object = check_slot(t, p, b, rights::NONE, Kind::Extended)?;
    if t.type_number(object) != t.slot(p, a).object {
        return Err(Refusal::WrongType);
    }
    Ok(object)
}

// Call 15.
pub fn set_inner(t: &mut Numbers, p: Package, a: Slot, b: Slot, c: Inner, d: Slot) -> Answer
    requires { Lent t.old }
    ensures { Ends (set_inner_place (machine t.old) p.number a.number b.number c.number d.number 0) t.old t.new result }
{
    let tables = Tables { numbers: t };
    let object = check_opens(&tables, p, a, b)?;
    let put = tables.slot(p, d);
    if !(put.is_null() | put.addable(tables.permits(object))) {
        return Err(Refusal::NotAddable);
    }
    storing::put_inner(t, object, c, put);
    Ok(0)
}

// Call 16.
pub fn get_inner(t: &mut Numbers, p: Package, a: Slot, b: Slot, c: Inner, d: Slot) -> Answer
    requires { Lent t.old }
    ensures { Ends (get_inner_place (machine t.old) p.number a.number b.number c.number d.number 0) t.old t.new result }
{
    let tables = Tables { numbers: t };
    let object = check_opens(&tables, p, a, b)?;
    let inner = tables.inner(object, c);
    storing::put_slot(t, p, d, inner);
    Ok(0)
}

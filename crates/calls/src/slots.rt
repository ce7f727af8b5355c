// Calls on slots: restrict, drop and hand.
ghost use Rattle.rules.specs.Calls.{restrict, drop, hand};
ghost use Rattle.tables.specs.Layout.{machine};
ghost use Rattle.access.specs.Lent.{Lent};
ghost use Rattle.checks.specs.Ends.{Ends};

use access::lent::Tables;
use access::sizes::Numbers;
use access::storing;
use access::which::{Package, Slot};
use things::{Answer, Capability, Refusal, rights};

// Call 1.
pub fn restrict(t: &mut Numbers, p: Package, a: Slot, mask: u16, c: Slot) -> Answer
    requires { Lent t.old }
    ensures { Ends (restrict (machine t.old) p.number a.number mask c.number 0 0) t.old t.new result }
{
    let tables = Tables { numbers: t };
    let held = tables.slot(p, a);
    storing::put_slot(t, p, c, held.restrict(mask));
    Ok(0)
}

// Call 2.
pub fn drop(t: &mut Numbers, p: Package, a: Slot) -> Answer
    requires { Lent t.old }
    ensures { Ends (drop (machine t.old) p.number a.number 0 0 0 0) t.old t.new result }
{
    storing::put_slot(t, p, a, Capability::null());
    Ok(0)
}

// Call 3, by the host.
pub fn hand(t: &mut Numbers, a: Package, b: Slot, c: Package, d: Slot) -> Answer
    requires { Lent t.old }
    ensures { Ends (hand (machine t.old) 8 a.number b.number c.number d.number 0) t.old t.new result }
{
    let tables = Tables { numbers: t };
    let held = tables.slot(a, b);
    if held.is_null() {
        return Err(Refusal::Empty);
    }
    if !held.has_right(rights::STORE) {
        return Err(Refusal::NotAddable);
    }
    storing::put_slot(t, c, d, held);
    Ok(0)
}

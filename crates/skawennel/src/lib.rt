// The machine for its callers: one call on any lent tables, fresh tables, a count, and the tables' length. None of these
// functions asks anything of its caller; those that begin skawennel_ are what C calls, by crate skawennel_c.
#![tactic(auto)]

ghost use Rattle.std.specs.Prelude.{◌≡◌, ◌≤◌, ◌+◌, replicate};
ghost use Rattle.std.proofs.lemmas.List.Edits.{sets};
ghost use Rattle.things.specs.Answers.{in_numbers};
ghost use Rattle.rules.specs.Machine.{holding, empty_directory};
ghost use Rattle.rules.specs.Changes.{set_place};
ghost use Rattle.tables.specs.Layout.{tables_size};
ghost use Rattle.tables.specs.Positions.{store, store_all};
ghost use Rattle.tables.specs.Call.{decide, answer, fresh_tables};
ghost use Rattle.checks.specs.Ends.{Ends};
ghost use Rattle.calls.specs.ByNumber.{call};
ghost use Rattle.skawennel.specs.Furnished.{shelf_and_desk};
ghost use Rattle.skawennel.specs.Boundary.{Stepped, Freshened, FreshenedInNumbers};

use access::lent::Tables;
use access::sizes::{self, Numbers};
use access::storing::{self, New};
use access::which::{Package, Place, Slot};
use calls::table::good_numbers;
use things::{Answer, Call, Capability, Kind, ObjectNumber, Outcome, Refusal};

// One call: for any tables and any seven numbers the answer, the value and the tables are the definition's.
pub fn step(tables: &mut [u16], x: Call) -> Answer
    ensures { Ends (decide tables.old x) tables.old tables.new result }
{
    let Some(numbers) = tables.as_mut_array() else {
        return Err(Refusal::BadTables);
    };
    if !formed::well_formed(numbers) {
        return Err(Refusal::BadTables);
    }
    calls::step::step_formed(numbers, x)
}

// Call 17 on tables that are only read. It opens as `step` does, whose tables are lent to be written.
pub fn count(tables: &[u16], caller: u16, slot: u16) -> Answer
    ensures { result ≡ answer tables.now (call caller 17 slot 0 0 0 0) }
{
    let Some(numbers) = tables.as_array() else {
        return Err(Refusal::BadTables);
    };
    if !formed::well_formed(numbers) {
        return Err(Refusal::BadTables);
    }
    let x = Call {
        caller,
        number: 17,
        a: slot,
        b: 0,
        c: 0,
        d: 0,
        e: 0,
    };
    if !good_numbers(x) {
        return Err(Refusal::BadNumber);
    }
    let package = Package {
        number: caller as usize,
    };
    let slot = Slot {
        number: slot as usize,
    };
    directories::count(&Tables { numbers }, package, slot)
}

// A directory as it is made, with nothing in it yet.
#[tactic(auto, unfolding(tables::specs::Positions::store), using(crate::proofs::Furnishing::directory_numbers))]
fn put_directory(tables: &mut Numbers, at: Place, serial: u16, permits: u16)
    ensures { tables.new ≡ store tables.old (set_place at.maker at.number (holding serial (empty_directory permits))) }
{
    let directory = New {
        kind: Kind::Directory,
        serial,
        permits,
        of: ObjectNumber(0, 0),
    };
    storing::put_new_object(tables, at, directory);
}

// A package's shelf and desk, and its last serial.
#[tactic(auto, unfolding(crate::specs::Furnished::shelf_and_desk, tables::specs::Positions::store_all))]
fn furnish(tables: &mut Numbers, p: Package)
    ensures { tables.new ≡ store_all tables.old (shelf_and_desk p.number) }
{
    let maker = p.number as u16;
    let shelf = Capability {
        object: ObjectNumber(maker, 1),
        rights: 255,
    };
    let desk = Capability {
        object: ObjectNumber(maker, 2),
        rights: 252,
    };
    storing::put_last(tables, p, 2);
    storing::put_slot(tables, p, Slot { number: 0 }, shelf);
    storing::put_slot(tables, p, Slot { number: 1 }, desk);
    put_directory(tables, p.place(0), 1, 0);
    put_directory(tables, p.place(1), 2, 3);
}

// Eight numbers become zero.
#[inline(never)]
fn clear_eight(tables: &mut Numbers, from: usize)
    requires { from + 8 ≤ tables_size }
    ensures { tables.new ≡ sets tables.old from (replicate 8 0) }
{
    tables[from..from + 8].copy_from_slice(&[0; 8]);
}

// Zeros. Eight at a time, by a function that stays a call of its own: a loop over all, as the slice's `fill`, becomes a call of
// the C library's memset, and the archive would need one more name from outside.
fn clear(tables: &mut Numbers)
    ensures { tables.new ≡ replicate tables_size 0 }
{
    for k in 0..sizes::TABLES / 8 {
        clear_eight(tables, 8 * k);
    }
}

// The fresh machine's tables.
#[tactic(auto, using(crate::proofs::Furnishing::furnished_one, crate::proofs::Furnishing::furnished_all))]
pub fn fill(tables: &mut Numbers)
    ensures { tables.new ≡ fresh_tables }
{
    clear(tables);
    for number in 0..sizes::PACKAGES {
        furnish(tables, Package { number });
    }
}

// Makes the tables the fresh machine's; tables of another length stay as they are.
pub fn fresh(tables: &mut [u16]) -> Answer
    ensures { Freshened tables.old tables.new result }
{
    match tables.as_mut_array() {
        Some(fitting) => {
            fill(fitting);
            Ok(0)
        }
        None => Err(Refusal::BadTables),
    }
}

// The numbers one by one, as C passes them.
pub fn skawennel_step(
    tables: &mut [u16],
    caller: u16,
    number: u16,
    a: u16,
    b: u16,
    c: u16,
    d: u16,
    e: u16,
) -> Outcome
    ensures { Stepped tables.old (call caller number a b c d e) result tables.new }
{
    let x = Call {
        caller,
        number,
        a,
        b,
        c,
        d,
        e,
    };
    step(tables, x).into()
}

pub fn skawennel_count(tables: &[u16], caller: u16, slot: u16) -> Outcome
    ensures { result ≡ in_numbers (answer tables.now (call caller 17 slot 0 0 0 0)) }
{
    count(tables, caller, slot).into()
}

// The answer as a number: an enum can't cross the boundary to C.
pub fn skawennel_fresh(tables: &mut [u16]) -> u16
    ensures { FreshenedInNumbers tables.old tables.new result }
{
    Outcome::from(fresh(tables)).answer
}

pub fn skawennel_tables_length() -> usize
    ensures { result ≡ tables_size }
{
    sizes::TABLES
}

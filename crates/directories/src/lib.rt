// Calls on directories: delete, add entry, remove entry, fetch and count.
#![tactic(auto)]

ghost use Rattle.std.specs.Prelude.{◌≡◌, ◌<◌};
ghost use Rattle.things.specs.Lists.{some};
ghost use Rattle.rules.specs.Machine.{inside, entries_of, is_used};
ghost use Rattle.rules.specs.Calls.{add_entry, drop_entry, fetch, count, delete};
ghost use Rattle.tables.specs.Layout.{machine};
ghost use Rattle.access.specs.Lent.{Lent};
ghost use Rattle.access.specs.Shown.{shown, lies_in};
ghost use Rattle.checks.specs.Ends.{Ends};
ghost use Rattle.checks.specs.Verdicts.{Judged};
ghost use Rattle.directories.specs.Deletes.{own_checks, IsDoomed};

pub mod doomed;

use access::lent::{Directory, Tables};
use access::sizes::Numbers;
use access::storing::{self, Entry};
use access::which::{Package, Place, Slot};
use checks::{check_directory, entry_spot};
use doomed::Doomed;
use things::{Answer, EntryName, Kind, Refusal, rights};

// Call 9.
pub fn add_entry(t: &mut Numbers, p: Package, a: Slot, name: EntryName, c: Slot) -> Answer
    requires { Lent t.old }
    ensures { Ends (add_entry (machine t.old) p.number a.number name.0 c.number 0 0) t.old t.new result }
{
    let tables = Tables { numbers: t };
    let directory = check_directory(&tables, p, a, rights::WRITE)?;
    let capability = tables.slot(p, c);
    if capability.is_null() {
        return Err(Refusal::Empty);
    }
    let position = entry_spot(&directory, name, capability)?;
    let at = directory.at;
    let added = Entry {
        name,
        capability,
        distinguished: false,
    };
    storing::put_entry(t, at, position, added);
    Ok(0)
}

// Call 10.
pub fn drop_entry(t: &mut Numbers, p: Package, a: Slot, name: EntryName) -> Answer
    requires { Lent t.old }
    ensures { Ends (drop_entry (machine t.old) p.number a.number name.0 0 0 0) t.old t.new result }
{
    let tables = Tables { numbers: t };
    let directory = check_directory(&tables, p, a, rights::REMOVE)?;
    let Some(position) = directory.find(name) else {
        return Err(Refusal::NoEntry);
    };
    if directory.is_distinguished(position) {
        return Err(Refusal::WrongEntry);
    }
    let at = directory.at;
    storing::put_entry(t, at, position, Entry::none());
    Ok(0)
}

// Call 11.
pub fn fetch(t: &mut Numbers, p: Package, a: Slot, name: EntryName, c: Slot) -> Answer
    requires { Lent t.old }
    ensures { Ends (fetch (machine t.old) p.number a.number name.0 c.number 0 0) t.old t.new result }
{
    let tables = Tables { numbers: t };
    let directory = check_directory(&tables, p, a, rights::READ)?;
    let Some(position) = directory.find(name) else {
        return Err(Refusal::NoEntry);
    };
    let listed = directory.capability(position);
    storing::put_slot(t, p, c, listed);
    Ok(0)
}

// Call 17.
pub fn count(tables: &Tables, p: Package, a: Slot) -> Answer
    ensures { Ends (count (shown tables.now) p.number a.number 0 0 0 0) tables.now.numbers.now tables.now.numbers.now result }
{
    let directory = check_directory(tables, p, a, rights::NONE)?;
    Ok(directory.used())
}

// Whether a place holds a directory with any entry.
fn occupied(t: &Tables, at: Place) -> bool
    ensures { result ≡ some is_used (entries_of (inside (shown t.now) at.maker at.number)) }
{
    if !t.is_kind(at, Kind::Directory) {
        return false;
    }
    t.directory(at).used() != 0
}

// What delete asks of the directory's entry with this name: where it and its own object are, or why they are kept.
fn check_own(t: &Tables, d: &Directory, name: EntryName) -> Result<Doomed, Refusal>
    requires { 0 < name.0 }
    ensures { Judged result (own_checks (shown t.now) (lies_in d.now) name.0) (IsDoomed (shown t.now) (lies_in d.now) name.0) }
{
    let Some(position) = d.find(name) else {
        return Err(Refusal::NoEntry);
    };
    if !d.is_distinguished(position) {
        return Err(Refusal::WrongEntry);
    }
    let own = d.capability(position);
    if !own.has_right(rights::DELETE) {
        return Err(Refusal::NoAbility);
    }
    let Some(place) = t.find_place(own.object) else {
        return Err(Refusal::Gone);
    };
    if occupied(t, place) {
        return Err(Refusal::Occupied);
    }
    Ok(Doomed { position, place })
}

// Call 8.
pub fn delete(t: &mut Numbers, p: Package, a: Slot, name: EntryName) -> Answer
    requires lent { Lent t.old }
    requires named { 0 < name.0 }
    ensures { Ends (delete (machine t.old) p.number a.number name.0 0 0 0) t.old t.new result }
{
    let tables = Tables { numbers: t };
    let directory = check_directory(&tables, p, a, rights::REMOVE)?;
    let doomed = check_own(&tables, &directory, name)?;
    let at = directory.at;
    storing::put_entry(t, at, doomed.position, Entry::none());
    storing::clear_place(t, doomed.place);
    Ok(0)
}

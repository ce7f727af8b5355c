// Calls on segments: read, write and copy.
#![tactic(auto)]

ghost use Rattle.std.specs.Prelude.{◌≡◌, ◌+◌, ltb};
ghost use Rattle.rules.specs.Machine.{WORDS};
ghost use Rattle.rules.specs.Calls.{read, write, copy};
ghost use Rattle.tables.specs.Layout.{machine};
ghost use Rattle.access.specs.Lent.{Lent};
ghost use Rattle.access.specs.Shown.{shown};
ghost use Rattle.checks.specs.Ends.{Ends};

use access::lent::Tables;
use access::sizes::{self, Numbers};
use access::storing;
use access::which::{Package, Slot};
use checks::check_slot;
use things::{Answer, Kind, Offset, Refusal, rights};

// Whether `count` words from an offset on reach past the segment's end.
fn beyond(at: Offset, count: u16) -> bool
    ensures { result ≡ ltb WORDS (at.0 + count) }
{
    sizes::WORDS < at.0 as usize + count as usize
}

// Call 12.
pub fn read(tables: &Tables, p: Package, a: Slot, at: Offset) -> Answer
    ensures { Ends (read (shown tables.now) p.number a.number at.0 0 0 0) tables.now.numbers.now tables.now.numbers.now result }
{
    let segment = check_slot(tables, p, a, rights::READ, Kind::Segment)?;
    if sizes::WORDS <= at.0 as usize {
        return Err(Refusal::Outside);
    }
    Ok(tables.word(segment, at))
}

// Call 13.
pub fn write(t: &mut Numbers, p: Package, a: Slot, at: Offset, word: u16) -> Answer
    requires { Lent t.old }
    ensures { Ends (write (machine t.old) p.number a.number at.0 word 0 0) t.old t.new result }
{
    let tables = Tables { numbers: t };
    let segment = check_slot(&tables, p, a, rights::WRITE, Kind::Segment)?;
    if sizes::WORDS <= at.0 as usize {
        return Err(Refusal::Outside);
    }
    storing::put_word(t, segment, at, word);
    Ok(0)
}

// Call 14.
pub fn copy(
    t: &mut Numbers,
    p: Package,
    a: Slot,
    from: Offset,
    c: Slot,
    to: Offset,
    count: u16,
) -> Answer
    requires { Lent t.old }
    ensures { Ends (copy (machine t.old) p.number a.number from.0 c.number to.0 count) t.old t.new result }
{
    let tables = Tables { numbers: t };
    let source = check_slot(&tables, p, a, rights::READ, Kind::Segment)?;
    let target = check_slot(&tables, p, c, rights::WRITE, Kind::Segment)?;
    if beyond(from, count) | beyond(to, count) {
        return Err(Refusal::Outside);
    }
    storing::copy_words(t, source, from, target, to, count);
    Ok(0)
}

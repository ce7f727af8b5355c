// The tree listing of the eight packages into a lent buffer.
#![tactic(auto)]

ghost use Rattle.std.specs.Prelude.{◌≡◌, true, ◌+◌, get_or, set};
ghost use Rattle.rules.specs.Machine.{DIRECTORY, EXTENDED, no_entry, inside, kind_of};
ghost use Rattle.rules.specs.Sound.{issued, capability_sound};
ghost use Rattle.tables.specs.Layout.{machine};
ghost use Rattle.text.specs.Tree.{shown_by, opened, tree};
ghost use Rattle.text.specs.Tree.{trees as listing_of};
ghost use Rattle.access.specs.Lent.{Lent};
ghost use Rattle.access.specs.Shown.{shown, listed_in};
ghost use Rattle.print.specs.Writing.{Room, Wrote, followed_by, sign_in};
ghost use Rattle.listing.specs.Walking.{number_of, sign_by, is_here, line_at, part, OpensAt, Listed, Ready};

use access::lent::{Directory, Tables};
use access::sizes;
use access::which::{Inner, Package, Place, Position, Slot};
use print::{Sign, Text};
use things::{Capability, Kind};

// The longest line, and the longest text: in each package's tree every object is opened at most once.
const LINE: usize = 20;

const TREE: usize = 4 + (sizes::SLOTS + sizes::PACKAGES * sizes::PLACES * sizes::ENTRIES) * LINE;

pub const TREES: usize = sizes::PACKAGES * TREE;

// One mark for each of the 128 places: whether the object there was opened. They go by value, a form that the rules name
// (docs/DECISIONS.md). A loop names an answer before it keeps it, since the check lays no call's answer over an array.
type Marks = [bool; 128];

fn number_of(at: Place) -> usize
    ensures { result ≡ number_of at }
{
    sizes::PLACES * at.maker + at.number
}

fn mark(mut marks: Marks, at: Place) -> Marks
    ensures { result ≡ set marks (number_of at) true }
{
    marks[number_of(at)] = true;
    marks
}

// What an entry shows: an unused one shows null.
#[tactic(auto, unfolding(rules::specs::Machine::is_used))]
fn entry_shown(directory: &Directory, j: Position) -> Capability
    ensures { result ≡ shown_by (get_or (listed_in directory.now) j.number no_entry) }
{
    if directory.is_used(j) {
        directory.capability(j)
    } else {
        Capability::null()
    }
}

// The sign of an object by its kind, which one that is gone has not.
fn sign_of(kind: Option<Kind>, marked: bool) -> Sign
    ensures { sign_in result ≡ sign_by kind marked }
{
    match kind {
        None => Sign::Lost,
        Some(Kind::Segment | Kind::Type) => Sign::Leaf,
        Some(Kind::Directory | Kind::Extended) if marked => Sign::Before,
        Some(Kind::Directory | Kind::Extended) => Sign::Here,
    }
}

// Whether an object with this sign is opened after its line.
fn opens(sign: Sign) -> bool
    ensures { result ≡ is_here (sign_in sign) }
{
    sign == Sign::Here
}

// The line of a capability, and the place whose object is opened after it, if one is; a null is left out. That the capability is
// sound ties it to these tables, so it is a clause here and at `show`.
fn begin(
    tables: &Tables,
    text: &mut Text<'_>,
    marks: &Marks,
    c: Capability,
    depth: u64,
) -> Option<Place>
    requires room { Room text.old (line_at (shown tables.now) depth c marks.now).text }
    requires c_value { capability_sound (issued (shown tables.now)) c ≡ true }
    ensures wrote { text.new ≡ followed_by text.old (line_at (shown tables.now) depth c marks.now).text }
    ensures opens { OpensAt result (shown tables.now) c marks.now }
{
    if c.is_null() {
        return None;
    }
    let Some(at) = tables.find_place(c.object) else {
        text.shown_line(depth, c, None, Sign::Lost);
        return None;
    };
    let kind = tables.kind(at);
    let sign = sign_of(kind, marks[number_of(at)]);
    text.shown_line(depth, c, kind, sign);
    opens(sign).then_some(at)
}

// The line of a capability and, where its object is opened here, what opening it shows, one deeper: only a directory and an
// extended object are opened. Tables and text stay two parameters: a struct that lends both would have to promise at each
// call that it still lends the same.
#[cycle(openers)]
fn show(tables: &Tables, text: &mut Text<'_>, marks: Marks, c: Capability, depth: u64) -> Marks
    requires ready { Ready text.old marks depth (part (shown tables.now) depth c marks) }
    requires c_value { capability_sound (issued (shown tables.now)) c ≡ true }
    ensures { Listed text.old text.new marks result (part (shown tables.now) depth c marks) }
{
    let Some(at) = begin(tables, text, &marks, c, depth) else {
        return marks;
    };
    let marked = mark(marks, at);
    if tables.is_kind(at, Kind::Directory) {
        open_directory(tables, text, marked, at, depth + 1)
    } else {
        open_extended(tables, text, marked, at, depth + 1)
    }
}

// The used entries of a directory by position. The two openers stay apart, a form that the rules name (docs/DECISIONS.md).
#[cycle(openers)]
fn open_directory(
    tables: &Tables,
    text: &mut Text<'_>,
    mut marks: Marks,
    at: Place,
    depth: u64,
) -> Marks
    requires ready { Ready text.old marks depth (opened (shown tables.now) depth (inside (shown tables.now) at.maker at.number) marks) }
    requires of { kind_of (inside (shown tables.now) at.maker at.number) ≡ DIRECTORY }
    ensures { Listed text.old text.new marks result (opened (shown tables.now) depth (inside (shown tables.now) at.maker at.number) marks) }
{
    let directory = tables.directory(at);
    for number in 0..sizes::ENTRIES {
        let c = entry_shown(&directory, Position { number });
        let after = show(tables, text, marks, c, depth);
        marks = after;
    }
    marks
}

// The inner places of an extended object that aren't null.
#[cycle(openers)]
fn open_extended(
    tables: &Tables,
    text: &mut Text<'_>,
    mut marks: Marks,
    at: Place,
    depth: u64,
) -> Marks
    requires ready { Ready text.old marks depth (opened (shown tables.now) depth (inside (shown tables.now) at.maker at.number) marks) }
    requires of { kind_of (inside (shown tables.now) at.maker at.number) ≡ EXTENDED }
    ensures { Listed text.old text.new marks result (opened (shown tables.now) depth (inside (shown tables.now) at.maker at.number) marks) }
{
    for number in 0..sizes::INNERS {
        let c = tables.inner(at, Inner { number });
        let after = show(tables, text, marks, c, depth);
        marks = after;
    }
    marks
}

// A package's listing: `P`, its number, and its slots. Its loop stays apart as the openers' do: it reads slots.
fn package_tree(tables: &Tables, text: &mut Text<'_>, p: Package)
    requires { Room text.old (tree (shown tables.now) p.number) }
    ensures { text.new ≡ followed_by text.old (tree (shown tables.now) p.number) }
{
    text.bytes(b"P ");
    text.number(p.number as u64, b'\n');
    let mut marks = [false; 128];
    for number in 0..sizes::SLOTS {
        let c = tables.slot(p, Slot { number });
        let after = show(tables, text, marks, c, 0);
        marks = after;
    }
}

// The listing of the eight packages, from the start of a buffer that is large enough for any: `trees_size`. It answers a count, since
// `Wrote` can't be said of a buffer that is lent on into the result.
pub fn trees_of(tables: &Tables, out: &mut [u8; TREES]) -> usize
    ensures { Wrote out.old out.new 0 result (listing_of (shown tables.now)) }
{
    let mut text = Text::new(out);
    for number in 0..sizes::PACKAGES {
        package_tree(tables, &mut text, Package { number });
    }
    text.len()
}

// The same of a lent slice that is well formed.
pub fn trees(t: &[u16], out: &mut [u8; TREES]) -> usize
    requires { Lent t.now }
    ensures { Wrote out.old out.new 0 result (listing_of (machine t.now)) }
{
    let Some(numbers) = t.as_array() else {
        unreachable!();
    };
    trees_of(&Tables { numbers }, out)
}

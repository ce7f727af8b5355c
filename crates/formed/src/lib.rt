// Whether lent tables are well formed. Every call asks it first, so it is written to be quick: what is unused is settled by
// one test for zeros that has no branch inside, and only what is used is looked at number by number.
#![tactic(auto)]

ghost use Rattle.std.specs.Prelude.{◌≡◌, ◌*◌, ◌/◌, ◌<◌, length, drop, [], eqb, Bool};
ghost use Rattle.std.specs.Iterator.{ActsAsAt};
ghost use Rattle.things.specs.Lists.{every, how_many, distinct};
ghost use Rattle.rules.specs.Sound.{names, capability_sound};
ghost use Rattle.tables.specs.Layout.{capability_size, head_size, capability_from, blocks};
ghost use Rattle.tables.specs.WellFormed.{well_formed};
ghost use Rattle.formed.specs.Block.{is_zero, known_by, column, segment_from, directory_from, extended_from, capabilities_formed, entry_formed, entries_formed, body_formed, place_formed, package_formed};

use access::positions::capability_at;
use access::sizes;
use things::{Capability, Kind, ObjectNumber};

// Where the used part of a place ends: after a segment's words, and after an object's inner places.
const AFTER_WORDS: usize = sizes::HEAD + sizes::WORDS;

const AFTER_INNERS: usize = sizes::HEAD + sizes::INNERS * sizes::CAPABILITY;

// The numbers are joined into one, without a branch, so that the loop runs on vectors. It is a `for`, since a fold is unrolled
// before it can become a loop on vectors: full tables then take a thirteenth longer.
#[tactic(auto, using(crate::proofs::Runs::zeros_joined))]
fn is_zero(x: &[u16]) -> bool
    ensures { result ≡ is_zero x.now }
{
    let mut any = 0;
    for n in x {
        any |= *n;
    }
    any == 0
}

// Whether all pass. Each is tested, so that no branch stands between the tests.
fn each<T, F: FnMut(&T) -> bool>(xs: &[T], test: F) -> bool
    requires { (f : F) (x : _) → F.pre f x }
    ensures { (f : T → Bool) → ActsAsAt F.FnMut test f → result ≡ every f xs.now }
{
    xs.iter().map(test).fold(true, |fine, passed| fine & passed)
}

// Number k of each of N blocks of w.
fn column<const N: usize>(x: &[u16], w: usize, k: usize) -> [u16; N]
    requires { (length x.now ≡ N * w) × (k < w) }
    ensures { result ≡ column k (blocks N w x.now) }
{
    std::array::from_fn(|i| x[w * i + k])
}

// A sum of ones and zeros, which has no branch, and a fixed length: all comparisons are made at once.
#[tactic(auto, using(crate::proofs::Runs::counted))]
fn count(ns: &[u16; 16], n: u16) -> u16
    ensures { result ≡ how_many (eqb n) ns.now }
{
    ns.iter().map(|m| u16::from(n == *m)).sum()
}

// Zeros aside.
fn are_distinct(ns: &[u16; 16]) -> bool
    ensures { result ≡ distinct ns.now }
{
    each(ns, |n| (*n == 0) | (count(ns, *n) <= 1))
}

// A place is its kind, its serial, its permits, its type's maker and serial, and its inside. This is asked of it after its kind
// and serial, as in `directory_formed` and `extended_formed` below: "Unused fields are zero."
//
// Words are any numbers, and no serial is asked for.
#[tactic(auto, using(crate::proofs::Places::segment_body))]
fn segment_formed(x: &[u16; sizes::PLACE]) -> bool
    ensures { result ≡ body_formed [] segment_from (drop 2 x.now) }
{
    ((x[2] == 0) & is_zero(&x[3..sizes::HEAD])) & is_zero(&x[AFTER_WORDS..])
}

// What is issued: the last serial of each package.
#[derive(Drop)]
struct Issued {
    lasts: [u16; sizes::PACKAGES],
}

impl Issued {
    // Whether a number is issued. The remainder keeps the index in range without a branch.
    #[tactic(auto, using(crate::proofs::Issuing::known_mod))]
    fn knows(&self, o: ObjectNumber) -> bool
        ensures { result ≡ known_by self.now.lasts o }
    {
        let maker = usize::from(o.0);
        (maker < sizes::PACKAGES) & ((0 < o.1) & (o.1 <= self.lasts[maker % sizes::PACKAGES]))
    }

    // "names an issued serial", with rights in range
    fn names(&self, c: Capability) -> bool
        ensures { result ≡ names (known_by self.now.lasts) c }
    {
        self.knows(c.object) & (c.rights < 256)
    }

    // "Every capability is null or names an issued serial." Most are null.
    #[tactic(auto, unfolding(rules::specs::Sound::capability_sound), using(crate::proofs::Issuing::first_capability))]
    fn capability_formed(&self, x: &[u16; sizes::CAPABILITY]) -> bool
        ensures { result ≡ capability_sound (known_by self.now.lasts) (capability_from x.now) }
    {
        let c = capability_at(x, 0);
        c.is_null() || self.names(c)
    }

    // All the capabilities that stand there: slots, or inner places.
    fn capabilities_formed(&self, x: &[u16]) -> bool
        ensures { result ≡ capabilities_formed self.now.lasts (length x.now / capability_size) x.now }
    {
        each(x.as_chunks().0, |c| self.capability_formed(c))
    }

    // "Used entries have .. a capability that isn't null." An empty one is all zero. All the numbers are read before the branch,
    // so that they are tested together.
    #[tactic(auto, using(crate::proofs::Places::entry_empty, crate::proofs::Places::entry_used))]
    fn entry_formed(&self, x: &[u16; sizes::ENTRY]) -> bool
        ensures { result ≡ entry_formed self.now.lasts x.now }
    {
        let name = x[0];
        let c = capability_at(x, 1);
        let flag = x[4];
        if name == 0 {
            return c.is_null() & (flag == 0);
        }
        self.names(c) & (flag <= 1)
    }

    // A directory's inside. One with no entry is settled by its zeros alone.
    #[tactic(auto, using(crate::proofs::Places::entries_zero))]
    fn entries_formed(&self, x: &[u16; sizes::PLACE]) -> bool
        ensures { result ≡ entries_formed self.now.lasts (drop head_size x.now) }
    {
        let inside = &x[sizes::HEAD..];
        if is_zero(inside) {
            return true;
        }
        let names = column(inside, sizes::ENTRY, 0);
        each(inside.as_chunks().0, |e| self.entry_formed(e)) & are_distinct(&names)
    }

    #[tactic(auto, using(crate::proofs::Places::directory_body))]
    fn directory_formed(&self, x: &[u16; sizes::PLACE]) -> bool
        ensures { result ≡ body_formed self.now.lasts directory_from (drop 2 x.now) }
    {
        ((x[2] < 4) & is_zero(&x[3..sizes::HEAD])) & self.entries_formed(x)
    }

    #[tactic(auto, using(crate::proofs::Places::extended_body))]
    fn extended_formed(&self, x: &[u16; sizes::PLACE]) -> bool
        ensures { result ≡ body_formed self.now.lasts extended_from (drop 2 x.now) }
    {
        let of = ObjectNumber(x[3], x[4]);
        let inners = &x[sizes::HEAD..AFTER_INNERS];
        ((x[2] < 4) & self.knows(of))
            & (self.capabilities_formed(inners) & is_zero(&x[AFTER_INNERS..]))
    }

    // "A place is all zero or holds an object made by that place's package, with a serial not above its last." One that begins
    // with no kind's number holds none: then it has to be all zero, and a number above the kinds settles that alone.
    #[tactic(auto, using(crate::proofs::Places::place_empty, crate::proofs::Places::place_unkind, crate::proofs::Places::place_segment, crate::proofs::Places::place_directory, crate::proofs::Places::place_type, crate::proofs::Places::place_extended))]
    fn place_formed(&self, last: u16, x: &[u16; sizes::PLACE]) -> bool
        ensures { result ≡ place_formed self.now.lasts last x.now }
    {
        let Ok(kind) = Kind::try_from(x[0]) else {
            return x[0] == 0 && is_zero(x);
        };
        let issued = (0 < x[1]) & (x[1] <= last);
        match kind {
            Kind::Segment => issued & segment_formed(x),
            Kind::Directory => issued & self.directory_formed(x),
            Kind::Type => issued & is_zero(&x[2..]),
            Kind::Extended => issued & self.extended_formed(x),
        }
    }

    // A package is its last serial, its slots and its places. ".. no two places hold one number."
    fn package_formed(&self, x: &[u16; sizes::PACKAGE]) -> bool
        ensures { result ≡ package_formed self.now.lasts x.now }
    {
        let slots = &x[sizes::FIRST_SLOT..sizes::FIRST_PLACE];
        let places = &x[sizes::FIRST_PLACE..];
        let serials = column(places, sizes::PLACE, 1);
        (self.capabilities_formed(slots)
            & each(places.as_chunks().0, |p| self.place_formed(x[0], p)))
            & are_distinct(&serials)
    }
}

// "BAD TABLES: not well formed", of a slice of any length.
#[tactic(auto, using(crate::proofs::Packages::other_length))]
pub fn well_formed(t: &[u16]) -> bool
    ensures { result ≡ well_formed t.now }
{
    if t.len() != sizes::TABLES {
        return false;
    }
    let issued = Issued {
        lasts: column(t, sizes::PACKAGE, 0),
    };
    each(t.as_chunks().0, |p| issued.package_formed(p))
}

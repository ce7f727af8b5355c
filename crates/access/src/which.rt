// Which package, slot, place, position or inner place: numbers that are in range by their types, each of a type of its own, so
// that none is taken for another.
ghost use Rattle.std.specs.Prelude.{◌≡◌, ◌<◌};
ghost use Rattle.rules.specs.Machine.{PACKAGES, SLOTS, PLACES, ENTRIES, INNERS};

// One of the eight packages.
#[derive(Clone, Copy, PartialEq, Eq)]
pub struct Package {
    pub number: usize,
    ghost in_range: { number < PACKAGES },
}

// One of a package's sixteen slots. It stands beside its package and not with it: a call names up to three slots of one package.
#[derive(Clone, Copy, PartialEq, Eq)]
pub struct Slot {
    pub number: usize,
    ghost in_range: { number < SLOTS },
}

// One of the sixteen places of a package, which holds objects of its making. The maker is a number here, as clauses name it
// wherever a place stands.
#[derive(Clone, Copy, PartialEq, Eq)]
pub struct Place {
    pub maker: usize,
    pub number: usize,
    ghost maker_in_range: { maker < PACKAGES },
    ghost in_range: { number < PLACES },
}

// Where an entry stands in a directory.
#[derive(Clone, Copy, PartialEq, Eq)]
pub struct Position {
    pub number: usize,
    ghost in_range: { number < ENTRIES },
}

// One of an extended object's four inner places.
#[derive(Clone, Copy, PartialEq, Eq)]
pub struct Inner {
    pub number: usize,
    ghost in_range: { number < INNERS },
}

impl Package {
    // A place of this package.
    pub fn place(self, number: usize) -> Place
        requires { number < PLACES }
        ensures { (result.maker ≡ self.number) × (result.number ≡ number) }
    {
        Place {
            maker: self.number,
            number,
        }
    }
}

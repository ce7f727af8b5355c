// Lent tables that are well formed, as they are read: the fact goes with them.
ghost use Rattle.std.specs.Prelude.{◌≡◌};
ghost use Rattle.rules.specs.Machine.{DIRECTORY, inside, kind_of};
ghost use Rattle.tables.specs.Layout.{machine};
ghost use Rattle.access.specs.Lent.{Lent};

use crate::sizes::Numbers;
use crate::which::Place;

// Well-formed tables, lent to be read. Where they are lent to be written they go as `&mut Numbers`, with `Lent` as a clause: a store
// writes whatever it is given, so a type that holds the fact would ask at each store what a call's contract says once.
#[derive(Clone, Copy)]
pub struct Tables<'a> {
    pub numbers: &'a Numbers,
    ghost lent: { Lent numbers.now },
}

// A place of theirs that holds a directory. It has the numbers itself, so that a clause about it names no tables inside it.
#[derive(Clone, Copy)]
pub struct Directory<'a> {
    pub numbers: &'a Numbers,
    pub at: Place,
    ghost lent: { Lent numbers.now },
    ghost is_directory: { kind_of (inside (machine numbers.now) at.maker at.number) ≡ DIRECTORY },
}

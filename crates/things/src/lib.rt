// The smallest things of the machine: numbers that are never mixed up, capabilities, and what a call answers.
#![tactic(auto)]

ghost use Rattle.std.specs.Prelude.{◌≡◌};
ghost use Rattle.things.specs.Rights.{capability, made_rights, null, is_null, has_right, restricted, takes, addable};
ghost use Rattle.things.specs.Answers.{refusal_number, in_numbers};
ghost use Rattle.things.specs.Kinds.{kind_number, Decodes};

pub mod permits;
pub mod rights;
pub mod table;

use permits::Permits;

// An object's maker (0 to 7) and serial (1 to 65,535).
#[repr(C)]
#[derive(Clone, Copy, PartialEq, Eq)]
pub struct ObjectNumber(pub u16, pub u16);

// The name of an entry in a directory, 1 to 65,535; 0 is an empty entry's.
#[derive(Clone, Copy, PartialEq, Eq)]
pub struct EntryName(pub u16);

// Where a word stands in a segment: 0 to 31. A call may name any number, and one above 31 is refused.
#[derive(Clone, Copy, PartialEq, Eq)]
pub struct Offset(pub u16);

// An object number with rights 0 to 255. Lent records may hold more than 255, so the field is as wide as theirs.
#[repr(C)]
#[derive(Clone, Copy, PartialEq, Eq)]
pub struct Capability {
    pub object: ObjectNumber,
    pub rights: u16,
}

impl Capability {
    // The capability that names nothing: all zero.
    pub fn null() -> Self
        ensures { result ≡ null }
    {
        Self {
            object: ObjectNumber(0, 0),
            rights: 0,
        }
    }

    // The capability that a make with these permits gives on its object: all rights but the store permissions that the permits
    // stand in for.
    pub fn made(object: ObjectNumber, permits: Permits) -> Self
        ensures { result ≡ capability object (made_rights permits.bits) }
    {
        Self {
            object,
            rights: 252 + (3 - permits.bits),
        }
    }

    #[tactic(auto, unfolding(crate::specs::Rights::is_null))]
    pub fn is_null(self) -> bool
        ensures { result ≡ is_null self }
    {
        self == Self::null()
    }

    // Whether each right of `asked` is among these rights.
    #[tactic(auto, unfolding(crate::specs::Rights::has_right))]
    pub fn has_right(self, asked: u16) -> bool
        ensures { result ≡ has_right self asked }
    {
        (self.rights & asked) == asked
    }

    // A new capability on the same object, with the rights that the mask leaves.
    #[tactic(auto, unfolding(crate::specs::Rights::restricted))]
    pub fn restrict(self, mask: u16) -> Self
        ensures { result ≡ restricted self mask }
    {
        Self {
            rights: self.rights & mask,
            ..self
        }
    }

    // Whether a container with these permits takes the capability.
    #[tactic(auto, using(crate::proofs::RightLaws::addable_both))]
    pub fn addable(self, permits: u16) -> bool
        ensures { result ≡ addable self permits }
    {
        self.stored_by(permits, 1) & self.stored_by(permits, 2)
    }

    // Whether a store permission is had, or is one that the container's permits do without.
    #[tactic(auto, unfolding(crate::specs::Rights::takes))]
    fn stored_by(self, permits: u16, permission: u16) -> bool
        ensures { result ≡ takes permits self permission }
    {
        self.has_right(permission) | ((permits & permission) == permission)
    }
}

// The kinds of objects. A place that holds none has no kind.
#[derive(Clone, Copy, PartialEq, Eq)]
pub enum Kind {
    Segment,
    Directory,
    Type,
    Extended,
}

impl From<Kind> for u16 {
    ghost from_gives = { λ kind n. n ≡ kind_number kind };

    fn from(kind: Kind) -> Self {
        match kind {
            Kind::Segment => 1,
            Kind::Directory => 2,
            Kind::Type => 3,
            Kind::Extended => 4,
        }
    }
}

// A number that no kind has.
#[derive(Clone, Copy, PartialEq, Eq)]
pub struct NoKind;

impl TryFrom<u16> for Kind {
    type Error = NoKind;

    ghost try_from_gives = { Decodes };

    #[tactic(auto, unfolding(crate::specs::Kinds::kind_from))]
    fn try_from(number: u16) -> Result<Self, NoKind> {
        match number {
            1 => Ok(Kind::Segment),
            2 => Ok(Kind::Directory),
            3 => Ok(Kind::Type),
            4 => Ok(Kind::Extended),
            _ => Err(NoKind),
        }
    }
}

// A call: who makes it, its number, and the five numbers that it is made with.
#[derive(Clone, Copy, PartialEq, Eq)]
pub struct Call {
    pub caller: u16,
    pub number: u16,
    pub a: u16,
    pub b: u16,
    pub c: u16,
    pub d: u16,
    pub e: u16,
}

// Why a call is refused, in the order in which the refusals are looked for.
#[derive(Clone, Copy, PartialEq, Eq)]
pub enum Refusal {
    BadTables,
    BadNumber,
    Empty,
    NoAbility,
    Gone,
    WrongKind,
    WrongType,
    Outside,
    NoEntry,
    NameUsed,
    WrongEntry,
    NotAddable,
    Occupied,
    NoRoom,
    NoPlace,
    Spent,
}

impl From<Refusal> for u16 {
    ghost from_gives = { λ why n. n ≡ refusal_number why };

    fn from(why: Refusal) -> Self {
        match why {
            Refusal::BadTables => 16,
            Refusal::BadNumber => 1,
            Refusal::Empty => 2,
            Refusal::NoAbility => 3,
            Refusal::Gone => 4,
            Refusal::WrongKind => 5,
            Refusal::WrongType => 12,
            Refusal::Outside => 10,
            Refusal::NoEntry => 6,
            Refusal::NameUsed => 7,
            Refusal::WrongEntry => 8,
            Refusal::NotAddable => 9,
            Refusal::Occupied => 11,
            Refusal::NoRoom => 13,
            Refusal::NoPlace => 14,
            Refusal::Spent => 15,
        }
    }
}

// What a call answers: its value where it is done, or the first refusal that applies.
pub type Answer = Result<u16, Refusal>;

// What C, and a line of the tape program, are told of an answer, in numbers, which alone cross the boundary to C: 0 where it is
// done, else the refusal's number; and the value.
#[repr(C)]
#[derive(Clone, Copy, PartialEq, Eq)]
pub struct Outcome {
    pub answer: u16,
    pub value: u16,
}

impl From<Answer> for Outcome {
    ghost from_gives = { λ given told. told ≡ in_numbers given };

    fn from(given: Answer) -> Self {
        match given {
            Ok(value) => Outcome { answer: 0, value },
            Err(why) => Outcome {
                answer: why.into(),
                value: 0,
            },
        }
    }
}

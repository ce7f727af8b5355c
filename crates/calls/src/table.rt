// The table of calls: which there are, who may make each, and what its five numbers are.
ghost use Rattle.std.specs.Prelude.{◌≡◌, MatchResult};
ghost use Rattle.things.specs.declared.Refusal.TheVariants.{BadNumber};
ghost use Rattle.rules.specs.Step.{Packages, no_call, row_of, in_range, may_call, good_numbers};
ghost use Rattle.calls.specs.ByNumber.{deed_number};
ghost use Rattle.calls.specs.Rows.{IsRow};

use things::table::{Callers, Listed};
use things::{Call, Refusal};

// The seventeen calls.
#[derive(Clone, Copy, PartialEq, Eq)]
pub enum Deed {
    Restrict,
    Drop,
    Hand,
    MakeSegment,
    MakeDirectory,
    MakeType,
    MakeObject,
    Delete,
    AddEntry,
    DropEntry,
    Fetch,
    Read,
    Write,
    Copy,
    SetInner,
    GetInner,
    Count,
}

impl TryFrom<u16> for Deed {
    type Error = Refusal;

    ghost try_from_gives = { λ n r. MatchResult r (λ deed. deed_number deed ≡ n) (λ why. (why ≡ BadNumber) × (row_of n ≡ no_call)) };

    #[tactic(auto, using(crate::proofs::Numbers::no_such))]
    fn try_from(number: u16) -> Result<Self, Refusal> {
        match number {
            1 => Ok(Deed::Restrict),
            2 => Ok(Deed::Drop),
            3 => Ok(Deed::Hand),
            4 => Ok(Deed::MakeSegment),
            5 => Ok(Deed::MakeDirectory),
            6 => Ok(Deed::MakeType),
            7 => Ok(Deed::MakeObject),
            8 => Ok(Deed::Delete),
            9 => Ok(Deed::AddEntry),
            10 => Ok(Deed::DropEntry),
            11 => Ok(Deed::Fetch),
            12 => Ok(Deed::Read),
            13 => Ok(Deed::Write),
            14 => Ok(Deed::Copy),
            15 => Ok(Deed::SetInner),
            16 => Ok(Deed::GetInner),
            17 => Ok(Deed::Count),
            _ => Err(Refusal::BadNumber),
        }
    }
}

// A row of the table.
#[derive(Clone, Copy, PartialEq, Eq)]
pub struct Row {
    pub callers: Callers,
    pub a: Listed,
    pub b: Listed,
    pub c: Listed,
    pub d: Listed,
    pub e: Listed,
}

// The row of a call by packages.
fn by_packages(a: Listed, b: Listed, c: Listed, d: Listed, e: Listed) -> Row
    ensures { result ≡ record { callers = Packages; a = a; b = b; c = c; d = d; e = e } }
{
    Row {
        callers: Callers::Packages,
        a,
        b,
        c,
        d,
        e,
    }
}

#[tactic(auto, unfolding(rules::specs::Step::may_call))]
fn may_call(callers: Callers, p: u16) -> bool
    ensures { result ≡ may_call callers p }
{
    match callers {
        Callers::Packages => p < 8,
        Callers::Host => p == 8,
        Callers::Nobody => false,
    }
}

#[tactic(auto, unfolding(rules::specs::Step::in_range))]
fn in_range(listed: Listed, n: u16) -> bool
    ensures { result ≡ in_range listed n }
{
    match listed {
        Listed::Slot => n < 16,
        Listed::Mask => n < 256,
        Listed::Package => n < 8,
        Listed::Name => 0 < n,
        Listed::Permits => n < 4,
        Listed::Inner => n < 4,
        Listed::Any => true,
        Listed::Unlisted => n == 0,
    }
}

impl Row {
    // In place, so that what a row lists is known where it is asked.
    #[inline(always)]
    #[tactic(auto, unfolding(rules::specs::Step::good_numbers))]
    fn takes(self, x: Call) -> bool
        ensures { (row : _) → IsRow row self → result ≡ good_numbers row x }
    {
        may_call(self.callers, x.caller)
            & in_range(self.a, x.a)
            & in_range(self.b, x.b)
            & in_range(self.c, x.c)
            & in_range(self.d, x.d)
            & in_range(self.e, x.e)
    }
}

// The caller may make this call, and each number is what the table lists for it. Each arm asks its row: chosen first
// and asked afterwards, a row is looked through anew at run time, and a record of a run misses the speed of a plain match.
#[tactic(auto, unfolding(rules::specs::Step::rows))]
pub fn row_takes(deed: Deed, x: Call) -> bool
    ensures { result ≡ good_numbers (row_of (deed_number deed)) x }
{
    use Listed::{Any, Inner, Mask, Name, Package, Permits, Slot, Unlisted};
    match deed {
        Deed::Restrict => by_packages(Slot, Mask, Slot, Unlisted, Unlisted).takes(x),
        Deed::Drop => by_packages(Slot, Unlisted, Unlisted, Unlisted, Unlisted).takes(x),
        Deed::Hand => Row {
            callers: Callers::Host,
            a: Package,
            b: Slot,
            c: Package,
            d: Slot,
            e: Unlisted,
        }
        .takes(x),
        Deed::MakeSegment | Deed::MakeDirectory | Deed::MakeType => {
            by_packages(Slot, Name, Permits, Slot, Unlisted).takes(x)
        }
        Deed::MakeObject => by_packages(Slot, Name, Slot, Slot, Permits).takes(x),
        Deed::Delete | Deed::DropEntry => {
            by_packages(Slot, Name, Unlisted, Unlisted, Unlisted).takes(x)
        }
        Deed::AddEntry | Deed::Fetch => by_packages(Slot, Name, Slot, Unlisted, Unlisted).takes(x),
        Deed::Read => by_packages(Slot, Any, Unlisted, Unlisted, Unlisted).takes(x),
        Deed::Write => by_packages(Slot, Any, Any, Unlisted, Unlisted).takes(x),
        Deed::Copy => by_packages(Slot, Any, Slot, Any, Any).takes(x),
        Deed::SetInner | Deed::GetInner => by_packages(Slot, Slot, Inner, Slot, Unlisted).takes(x),
        Deed::Count => by_packages(Slot, Unlisted, Unlisted, Unlisted, Unlisted).takes(x),
    }
}

// The same of a call by its number, whatever it is: one that is none of the seventeen has no row that would take its numbers.
#[tactic(auto, using(crate::proofs::ByRow::same_row, crate::proofs::ByRow::none_good))]
pub fn good_numbers(x: Call) -> bool
    ensures { result ≡ good_numbers (row_of x.number) x }
{
    match Deed::try_from(x.number) {
        Ok(deed) => row_takes(deed, x),
        Err(_) => false,
    }
}

// The machine's functions for C, in an archive: each is the library's of its name, under its contract. None asks anything of its
// caller.
#![tactic(auto)]

ghost use Rattle.std.specs.Prelude.{◌≡◌};
ghost use Rattle.tables.specs.Layout.{tables_size};
ghost use Rattle.tables.specs.Call.{answer};
ghost use Rattle.things.specs.Answers.{in_numbers};
ghost use Rattle.calls.specs.ByNumber.{call};
ghost use Rattle.skawennel.specs.Boundary.{Stepped, FreshenedInNumbers};

use things::Outcome;

// The numbers one by one, as C passes them.
#[unsafe(no_mangle)]
pub extern "C" fn skawennel_step(
    tables: &mut [u16],
    caller: u16,
    number: u16,
    a: u16,
    b: u16,
    c: u16,
    d: u16,
    e: u16,
) -> Outcome
    ensures { Stepped tables.old (call caller number a b c d e) result tables.new }
{
    skawennel::skawennel_step(tables, caller, number, a, b, c, d, e)
}

#[unsafe(no_mangle)]
pub extern "C" fn skawennel_count(tables: &[u16], caller: u16, slot: u16) -> Outcome
    ensures { result ≡ in_numbers (answer tables.now (call caller 17 slot 0 0 0 0)) }
{
    skawennel::skawennel_count(tables, caller, slot)
}

#[unsafe(no_mangle)]
pub extern "C" fn skawennel_fresh(tables: &mut [u16]) -> u16
    ensures { FreshenedInNumbers tables.old tables.new result }
{
    skawennel::skawennel_fresh(tables)
}

#[unsafe(no_mangle)]
pub extern "C" fn skawennel_tables_length() -> usize
    ensures { result ≡ tables_size }
{
    skawennel::skawennel_tables_length()
}

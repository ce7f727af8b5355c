// A call by its number, on tables that are well formed, and the calls on slots; those on objects have crates of their own.
#![tactic(auto)]

pub mod slots;
pub mod step;
pub mod table;

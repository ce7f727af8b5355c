// The sizes of the lent tables and of their parts, as docs/TABLES.md shows them.

// How many there are.
pub const PACKAGES: usize = 8;

pub const SLOTS: usize = 16;

pub const PLACES: usize = 16;

pub const WORDS: usize = 32;

pub const ENTRIES: usize = 16;

pub const INNERS: usize = 4;

// How many numbers each takes.
pub const CAPABILITY: usize = 3;

pub const ENTRY: usize = 2 + CAPABILITY;

// Of a place: kind, serial, permits, and the type's maker and serial; then the inside, as much as the largest kind needs.
pub const HEAD: usize = 5;

pub const INSIDE: usize = ENTRIES * ENTRY;

pub const PLACE: usize = HEAD + INSIDE;

// Of a package: its last serial, its slots, its places.
pub const FIRST_SLOT: usize = 1;

pub const FIRST_PLACE: usize = FIRST_SLOT + SLOTS * CAPABILITY;

pub const PACKAGE: usize = FIRST_PLACE + PLACES * PLACE;

pub const TABLES: usize = PACKAGES * PACKAGE;

// The lent numbers.
pub type Numbers = [u16; TABLES];

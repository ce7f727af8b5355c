// The rights of a capability. They are bits that a mask leaves or takes, so they are numbers and no enum.
pub const NONE: u16 = 0;

// The store permissions.
pub const STORE: u16 = 1;

pub const KEEP: u16 = 2;

pub const READ: u16 = 4;

// In a directory: add.
pub const WRITE: u16 = 8;

pub const REMOVE: u16 = 16;

pub const DELETE: u16 = 32;

// Of a type.
pub const MAKE: u16 = 64;

pub const OPEN: u16 = 128;

// The words in which the table of calls says who may make a call, and what each of its five numbers is.

// Who may make a call: the eight packages, or the host; nobody, where there is no such call.
#[derive(Clone, Copy, PartialEq, Eq)]
pub enum Callers {
    Packages,
    Host,
    Nobody,
}

// What a call's number is. Offsets, counts and words are any numbers; an unlisted number is 0.
#[derive(Clone, Copy, PartialEq, Eq)]
pub enum Listed {
    Slot,
    Mask,
    Package,
    Name,
    Permits,
    Inner,
    Any,
    Unlisted,
}

// The permits of a make.
ghost use Rattle.std.specs.Prelude.{◌<◌};

// The store permissions that a container does without, 0 to 3.
#[derive(Clone, Copy, PartialEq, Eq)]
pub struct Permits {
    pub bits: u16,
    ghost in_range: { bits < 4 },
}

// An entry and its own object, once delete has checked them.
use access::which::{Place, Position};

#[derive(Clone, Copy, PartialEq, Eq)]
pub struct Doomed {
    pub position: Position,
    pub place: Place,
}

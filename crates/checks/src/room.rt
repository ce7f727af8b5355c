// What a new object takes: its entry's position, its place and its serial.
use access::which::{Place, Position};

#[derive(Clone, Copy, PartialEq, Eq)]
pub struct Room {
    pub position: Position,
    pub place: Place,
    pub serial: u16,
}

// Reading, searching and storing in the lent tables.
#![tactic(auto)]

pub mod lent;
pub mod positions;
pub mod reading;
pub mod search;
pub mod sizes;
pub mod storing;
pub mod which;

// The list of stocks that the host is lent: judged, searched by halving, and changed in one byte.
#![tactic(auto)]

pub mod find;
pub mod judge;
mod places;
pub mod set;
pub mod standing;

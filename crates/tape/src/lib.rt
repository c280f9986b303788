// A tape is a row of entries: kinds, their lengths, judging an entry and reading it into a value.
#![tactic(auto, unfolding(crate::proofs::Opened::opened))]

pub mod cutting;
pub mod entry;
pub mod judging;
pub mod kinds;
pub mod reading;

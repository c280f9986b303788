// The outbox: a ring of lent bytes that never forgets. A message that has no room is turned away, and nothing moves.
#![tactic(auto, unfolding(crate::proofs::Opened::opened))]

pub mod marks;
pub mod put;
pub mod read;
pub mod release;

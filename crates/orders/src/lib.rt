// A record of the table as a value: an order with its three counts and its flags, its 80 bytes, when these are sound, whether it is live and what is
// open of it, and which orders an entry is about that names no token.
#![tactic(auto, unfolding(crate::proofs::Opened::opened))]

pub mod counts;
pub mod flags;
pub mod live;
pub mod order;
pub mod record;
pub mod sound;
pub mod wanted;

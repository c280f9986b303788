// What the market and the book tell the host: header, order and entry as values in, a plan out.
#![tactic(auto, unfolding(crate::proofs::Opened::opened))]

pub mod cross;
pub mod day;
mod guards;
pub mod halt;
pub mod priority;
pub mod taken;

// What a firm's risk officer asks for by the purge port: that its orders go, and that it enters no more. Header, order and entry as values in, a plan
// out.
#![tactic(auto, unfolding(crate::proofs::Opened::opened))]

pub mod blocking;
pub mod purging;

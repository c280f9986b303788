// The host: one call that takes an entry to the table and its message to the outbox.
#![tactic(auto, unfolding(crate::proofs::Opened::opened))]

mod commit;
mod decide;
pub mod step;

// The twelve messages that the host sends: a struct each, which says how its fields stand in its bytes.
//
// Its reader and its writer are `wire::body`'s `read` and `write`, which take every input: they judge first, and their answers are the paper's.
// `parse` and `spell` are the steps behind them, for a caller that has judged already. Letters stay bytes: reading gives each back as it came.
#![tactic(auto, unfolding(crate::proofs::Opened::opened))]

pub mod accepted;
pub mod aiq_cancelled;
pub mod broken_trade;
pub mod cancel_pending;
pub mod cancel_reject;
pub mod canceled;
pub mod executed;
mod head;
pub mod modified;
pub mod priority_update;
pub mod rejected;
pub mod replaced;
pub mod stated;
pub mod system_event;

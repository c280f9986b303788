// What each client's entry does: header, orders and entry as values in, a plan out. No rule sees a byte of the table or the ring.
#![tactic(auto, unfolding(crate::proofs::Opened::opened))]

pub mod cancel;
pub mod enter;
pub mod modify;
pub mod plan;
pub mod replace;

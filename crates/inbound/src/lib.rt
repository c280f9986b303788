// The four messages that a client sends: a struct each, which says how its fields stand in its bytes.
//
// Its reader and its writer are `wire::body`'s `read` and `write`, which take every input: they judge first, and their answers are the paper's.
// `parse` and `spell` are the steps behind them, for a caller that has judged already. Letters stay bytes: reading gives each back as it came, and
// display, capacity and cross are judged by the rules alone.
#![tactic(auto, unfolding(crate::proofs::Opened::opened))]

pub mod cancel_order;
pub mod enter_order;
pub mod modify_order;
pub mod replace_order;

// What the engine's entries say beside stamp and token. (O, U, X and M carry the inbound messages, and are read as those.)
use wire::shares::Removed;

#[derive(Clone, Copy)]
pub struct Execution {
    pub shares: Removed,
    pub price: u32,
    pub flag: u8,
    pub match_number: u64,
}

#[derive(Clone, Copy)]
pub struct BookCancel {
    pub shares: Removed,
    pub reason: u8,
}

#[derive(Clone, Copy)]
pub struct SelfMatch {
    pub shares: Removed,
    pub prevented: Removed,
    pub price: u32,
    pub flag: u8,
}

#[derive(Clone, Copy)]
pub struct Priority {
    pub price: u32,
}

#[derive(Clone, Copy)]
pub struct System {
    pub event: u8,
}

// A stock is to trade or to be halted.
#[derive(Clone, Copy)]
pub struct StockState {
    pub symbol: [u8; 8],
    pub state: u8,
}

// A firm's orders are to go, in one symbol or, where that is eight spaces, in all. The bytes stay as they came: that they are the request's is said of
// them (`TellsPurge`).
#[derive(Clone, Copy)]
pub struct Purge {
    pub firm: [u8; 4],
    pub symbol: [u8; 8],
}

// A firm's new orders are to be kept out, or let in again.
#[derive(Clone, Copy)]
pub struct Blocking {
    pub firm: [u8; 4],
}

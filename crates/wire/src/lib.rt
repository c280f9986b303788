// What messages are made of: tokens, stamps, letters, prices, the two kinds of share number, and layouts.
#![tactic(auto)]

pub mod body;
pub mod by_number;
pub mod judge;
pub mod letters;
pub mod messages;
pub mod places;
pub mod price;
pub mod shares;
pub mod spelling;
pub mod text;

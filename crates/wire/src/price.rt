// The price type: only a price that the paper lets an order have is ever made.
ghost use Rattle.std.specs.Prelude.{◌≡◌};
ghost use Rattle.wire.specs.Price.{priced_of};

use crate::letters::is_opening_or_closing;

#[derive(Clone, Copy, PartialEq, Eq)]
pub struct Price(pub u32);

impl Price {
    pub const LOWEST: u32 = 1;

    pub const HIGHEST: u32 = 1_999_999_900;
    // A market order in a cross.
    pub const MARKET: u32 = 2_147_483_647;

    // A limit price, or the market price where the order is for the opening or the closing cross.
    #[tactic(auto, unfolding(crate::specs::Price::priced_of, crate::specs::Price::good_price))]
    pub fn new(price: u32, cross: u8) -> Option<Price>
        ensures { result ≡ priced_of price cross }
    {
        let limit = matches!(price, Price::LOWEST..=Price::HIGHEST);
        let market = (price == Price::MARKET) & is_opening_or_closing(cross);
        if limit | market {
            return Some(Price(price));
        }
        None
    }
}

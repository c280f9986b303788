// How many orders are live and how much is open of them, for a status screen: both stand in the table, and no record is looked at.
ghost use Rattle.std.specs.Prelude.{◌≡◌};
ghost use Rattle.table.specs.Status.{form_good, status};

use crate::places::bit_bytes;
use crate::sound::size_good;
use crate::store::open_sum;
use answers::Refusal;
use bitrow::ones;
use header::TABLE_FORM;
use octets::byte_at;

#[derive(Clone, Copy)]
pub struct Tally {
    // how many orders are live
    pub live: usize,
    // how many shares are open of them
    pub shares: usize,
}

fn form_good(table: &[u8]) -> bool
    ensures { result ≡ form_good table.now }
{
    size_good(table) && byte_at(table, 2) == TABLE_FORM
}

#[tactic(auto, unfolding(crate::specs::Status::status))]
pub fn status(table: &[u8]) -> Result<Tally, Refusal>
    ensures { result ≡ status table.now }
{
    if form_good(table) {
        return Ok(Tally {
            live: ones(bit_bytes(table)),
            shares: open_sum(table) as usize,
        });
    }
    Err(Refusal::NotSound)
}

// Six functions behind a C door of their own, whose symbols stand in scales_c, for the benchmark to weigh by themselves: a step does all of this and
// more, and the host's door calls none of them.
#![tactic(auto)]

ghost use Rattle.std.specs.Prelude.{◌≡◌, true, length};
ghost use Rattle.answers.specs.Answer.{answer_number};
ghost use Rattle.outbox.specs.Outbox.{put_answer, put_ring};
ghost use Rattle.stocks.specs.Limits.{symbol_size};
ghost use Rattle.stocks.specs.Stocks.{list_good, standing_in};
ghost use Rattle.orders.specs.Wanted.{is_wanted};
ghost use Rattle.table.specs.Table.{sound, place_of, first_marked};
ghost use Rattle.octets.specs.Choice.{pick};
ghost use Rattle.scales.specs.Numbers.{marks, standing_number, wanted_given};

use answers::number;
use orders::wanted::Wanted;
use outbox::marks::Marks;
use outbox::put::put;
use stocks::find::standing;
use stocks::judge::list_good;
use stocks::standing::Standing;
use table::find::find;
use table::search::find_wanted;
use table::sound::sound;

// 1 for a sound table, and 0.
pub fn pq_sound(table: &[u8]) -> u8
    ensures { result ≡ pick (sound table.now) 1 0 }
{
    u8::from(sound(table))
}

// The place of a token's first used record; the number of used records where none has it.
pub fn pq_find(table: &[u8], token: &[u8; 14]) -> usize
    ensures { result ≡ place_of table.now token.now }
{
    find(table, *token)
}

// The place of the first live order of the firm that isn't late, by the bits; of those in this stock alone, where `stocked` is not 0. The number of
// used records where there is none.
#[tactic(auto, unfolding(crate::specs::Numbers::wanted_given))]
pub fn pq_find_wanted(table: &[u8], firm: &[u8; 4], symbol: &[u8; 8], stocked: u8) -> usize
    ensures { result ≡ first_marked table.now (is_wanted (wanted_given firm.now symbol.now stocked)) }
{
    // the borrow checker takes an array into a literal by a variable alone
    let firm = *firm;
    let symbol = if stocked == 0 { None } else { Some(*symbol) };
    find_wanted(table, Wanted { firm, symbol })
}

// A message behind the held bytes; the caller counts them.
pub fn pq_put(ring: &mut [u8], at: usize, held: usize, message: &[u8]) -> u8
    ensures { (result ≡ answer_number (put_answer (length ring.old) (marks at held) (length message.now))) × (ring.new ≡ put_ring ring.old (marks at held) message.now) }
{
    number(put(ring, &mut Marks { at, held }, message))
}

// 1 for a right list of stocks, and 0.
pub fn pq_stocks_good(stocks: &[u8]) -> u8
    ensures { result ≡ pick (list_good stocks.now) 1 0 }
{
    u8::from(list_good(stocks))
}

// How a symbol of eight bytes stands in a list that was judged: 0 where it is not listed, 1 where it trades, 2 where it is halted.
pub fn pq_standing(stocks: &[u8], symbol: &[u8]) -> u8
    requires { (list_good stocks.now ≡ true) × (length symbol.now ≡ symbol_size) }
    ensures { result ≡ standing_number (standing_in stocks.now symbol.now) }
{
    let eight = octets::bytes_at(symbol, 0);
    match standing(stocks, eight) {
        Standing::Trading => 1,
        Standing::Halted => 2,
        Standing::Unlisted => 0,
    }
}

// One walk over the records of a table, of today's form or an older one: whether each is sound, and how much is open of all of them. Every step makes it,
// so it is left at the first record that fails, and no other function calls the judge of a record: the compiler then puts it into this loop.
ghost use Rattle.std.specs.Prelude.{◌≡◌, ◌+◌, ◌*◌, ◌≤◌, length};
ghost use Rattle.header.specs.Limits.{header_size};
ghost use Rattle.orders.specs.Limits.{record_size};
ghost use Rattle.table.specs.Limits.{most_records};
ghost use Rattle.table.specs.Walk.{found_in};

use crate::places::record_at;
use orders::sound::judge_record;

// How much is open of the first n records; none where one of them is not sound.
pub fn walk(table: &[u8], n: usize) -> Option<u64>
    requires { (header_size + record_size * n ≤ length table.now) × (n ≤ most_records) }
    ensures { result ≡ found_in table.now n }
{
    let mut sum: u64 = 0;
    for i in 0..n {
        let open = judge_record(record_at(table, i))?;
        sum += open.0 as u64;
    }
    Some(sum)
}

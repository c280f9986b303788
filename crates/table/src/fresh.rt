// The fresh call: a table with nothing in it, from threshold and firms.
ghost use Rattle.std.specs.Prelude.{◌≡◌, length};
ghost use Rattle.octets.specs.Bytes.{zeros};
ghost use Rattle.header.specs.Settings.{fresh_header};
ghost use Rattle.table.specs.Table.{store_header};
ghost use Rattle.table.specs.Fresh.{fresh_answer, fresh_table};

use crate::places::store_header;
use crate::sound::size_good;
use answers::{Answer, Refusal};
use header::settings::{Settings, fresh_header, settings_good};

// 10 for a bad length, then 3 for bad settings.
fn fresh_answer(table: &[u8], settings: Settings) -> Answer
    ensures { result ≡ fresh_answer table.now settings }
{
    if !size_good(table) {
        return Err(Refusal::NotSound);
    }
    if !settings_good(settings) {
        return Err(Refusal::BadField(0));
    }
    Ok(())
}

// Zeros, and the header over them.
fn begin(table: &mut [u8], settings: Settings)
    ensures { table.new ≡ store_header (zeros (length table.old)) (fresh_header settings) }
{
    table.fill(0);
    store_header(table, fresh_header(settings));
}

pub fn fresh(table: &mut [u8], settings: Settings) -> Answer
    ensures { (result ≡ fresh_answer table.old settings) × (table.new ≡ fresh_table table.old settings) }
{
    fresh_answer(table, settings)?;
    begin(table, settings);
    Ok(())
}

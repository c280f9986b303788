// What the status call says of all orders, where a script asks it.
use crate::run::Run;
use crate::text::Text;
use std::io;
use std::io::Write;
use table::status::status;

pub(crate) fn asked(table: &[u8], run: Run, out: &mut Text) -> io::Result<()> {
    if !run.asks {
        return Ok(());
    }
    match status(table) {
        Ok(tally) => write!(out, ", in all {} live, {} open", tally.live, tally.shares),
        Err(refusal) => write!(out, ", status {}", refusal.number()),
    }
}

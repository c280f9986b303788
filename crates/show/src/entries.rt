// A tape, one line an entry.
ghost use Rattle.std.specs.Prelude.{◌≡◌, length};

use crate::bad::point_at;
use crate::line::{
    end_line, say_firm, say_head, say_letter, say_number, say_price, say_refused, say_stamp,
    say_stock, say_token,
};
use answers::Refusal;
use std::io;
use std::io::Stdout;
use tape::judging::judge;
use tape::kinds::{Kind, kind_of};
use tape::reading::{
    blocking_of, book_cancel_of, cancel_of, enter_of, execution_of, modify_of, priority_of,
    purge_of, replace_of, self_match_of, stamp_of, stock_state_of, system_of, token_of,
};

// By the kind. An entry that is bad in itself is shown by its answer, and with a bad field by a line that points at its first bad byte.
pub(crate) fn show_entry(out: Stdout, s: &[u8]) -> io::Result<()> {
    match judge(s) {
        Ok(()) => show_legal(out, s),
        Err(refusal) => show_refused(out, s, refusal),
    }
}

fn show_refused(out: Stdout, s: &[u8], refusal: Refusal) -> io::Result<()> {
    let shown = say_refused(out, b"Entry", refusal);
    let at = refusal.place();
    match s.get(at) {
        Some(b) if at != 0 => point_at(out, kind_of(s), at, *b),
        _ => shown,
    }
}

// What was judged has its kind's length. The readers ask for it, so it is asked for once more, here for all that show an entry.
fn show_legal(out: Stdout, s: &[u8]) -> io::Result<()> {
    match kind_of(s) {
        Kind::Enters if s.len() == 56 => show_enter(out, s),
        Kind::Replaces if s.len() == 55 => show_replace(out, s),
        Kind::Cancels if s.len() == 27 => show_cancel(out, s),
        Kind::Modifies if s.len() == 28 => show_modify(out, s),
        Kind::Executes if s.len() == 40 => show_execution(out, s),
        Kind::BookCancels if s.len() == 28 => show_book_cancel(out, s),
        Kind::SelfMatches if s.len() == 36 => show_self_match(out, s),
        Kind::Prioritises if s.len() == 27 => show_priority(out, s),
        Kind::TurnsLate if s.len() == 23 => show_named(out, b"Late Begins ", s),
        Kind::EndsCross if s.len() == 23 => show_named(out, b"Cross Done ", s),
        Kind::TellsDay if s.len() == 10 => show_system(out, s),
        Kind::SetsStock if s.len() == 18 => show_stock_state(out, s),
        Kind::Purges if s.len() == 21 => show_purge(out, s),
        Kind::Disables if s.len() == 13 => show_blocking(out, b"Disable Order Entry ", s),
        Kind::Enables if s.len() == 13 => show_blocking(out, b"Enable Order Entry ", s),
        _ => Ok(()),
    }
}

fn show_enter(out: Stdout, s: &[u8]) -> io::Result<()>
    requires { length s.now ≡ 56 }
{
    let m = enter_of(s);
    say_head(out, b"Enter Order ", stamp_of(s), token_of(s));
    say_letter(out, b" side ", m.side);
    say_number(out, b" shares ", m.shares.0 as u64);
    say_stock(out, m.stock);
    say_price(out, m.price);
    say_number(out, b" time in force ", m.time as u64);
    say_firm(out, m.firm);
    say_letter(out, b" display ", m.display);
    say_letter(out, b" capacity ", m.capacity);
    say_letter(out, b" sweep ", m.sweep);
    say_number(out, b" minimum ", m.minimum.0 as u64);
    say_letter(out, b" cross ", m.cross);
    end_line(out)
}

fn show_replace(out: Stdout, s: &[u8]) -> io::Result<()>
    requires { length s.now ≡ 55 }
{
    let m = replace_of(s);
    say_head(out, b"Replace Order ", stamp_of(s), token_of(s));
    say_token(out, b" replacement ", m.replacement);
    say_number(out, b" shares ", m.shares.0 as u64);
    say_price(out, m.price);
    say_number(out, b" time in force ", m.time as u64);
    say_letter(out, b" display ", m.display);
    say_letter(out, b" sweep ", m.sweep);
    say_number(out, b" minimum ", m.minimum.0 as u64);
    end_line(out)
}

fn show_cancel(out: Stdout, s: &[u8]) -> io::Result<()>
    requires { length s.now ≡ 27 }
{
    let m = cancel_of(s);
    say_head(out, b"Cancel Order ", stamp_of(s), token_of(s));
    say_number(out, b" size ", m.size.0 as u64);
    end_line(out)
}

fn show_modify(out: Stdout, s: &[u8]) -> io::Result<()>
    requires { length s.now ≡ 28 }
{
    let m = modify_of(s);
    say_head(out, b"Modify Order ", stamp_of(s), token_of(s));
    say_letter(out, b" side ", m.side);
    say_number(out, b" shares ", m.shares.0 as u64);
    end_line(out)
}

fn show_execution(out: Stdout, s: &[u8]) -> io::Result<()>
    requires { length s.now ≡ 40 }
{
    let m = execution_of(s);
    say_head(out, b"Execution ", stamp_of(s), token_of(s));
    say_number(out, b" shares ", m.shares.0 as u64);
    say_price(out, m.price);
    say_letter(out, b" flag ", m.flag);
    say_number(out, b" match number ", m.match_number);
    end_line(out)
}

fn show_book_cancel(out: Stdout, s: &[u8]) -> io::Result<()>
    requires { length s.now ≡ 28 }
{
    let m = book_cancel_of(s);
    say_head(out, b"Book Cancel ", stamp_of(s), token_of(s));
    say_number(out, b" shares ", m.shares.0 as u64);
    say_letter(out, b" reason ", m.reason);
    end_line(out)
}

fn show_self_match(out: Stdout, s: &[u8]) -> io::Result<()>
    requires { length s.now ≡ 36 }
{
    let m = self_match_of(s);
    say_head(out, b"Self Match ", stamp_of(s), token_of(s));
    say_number(out, b" shares ", m.shares.0 as u64);
    say_number(out, b" prevented ", m.prevented.0 as u64);
    say_price(out, m.price);
    say_letter(out, b" flag ", m.flag);
    end_line(out)
}

fn show_priority(out: Stdout, s: &[u8]) -> io::Result<()>
    requires { length s.now ≡ 27 }
{
    let m = priority_of(s);
    say_head(out, b"Priority ", stamp_of(s), token_of(s));
    say_price(out, m.price);
    end_line(out)
}

// What says no more than which order it is about.
fn show_named(out: Stdout, name: &[u8], s: &[u8]) -> io::Result<()>
    requires { length s.now ≡ 23 }
{
    say_head(out, name, stamp_of(s), token_of(s));
    end_line(out)
}

fn show_system(out: Stdout, s: &[u8]) -> io::Result<()>
    requires { length s.now ≡ 10 }
{
    let m = system_of(s);
    say_stamp(out, b"System ", stamp_of(s));
    say_letter(out, b" event ", m.event);
    end_line(out)
}

fn show_stock_state(out: Stdout, s: &[u8]) -> io::Result<()>
    requires { length s.now ≡ 18 }
{
    let m = stock_state_of(s);
    say_stamp(out, b"Stock State ", stamp_of(s));
    say_stock(out, m.symbol);
    say_letter(out, b" state ", m.state);
    end_line(out)
}

fn show_purge(out: Stdout, s: &[u8]) -> io::Result<()>
    requires { length s.now ≡ 21 }
{
    let m = purge_of(s);
    say_stamp(out, b"Purge ", stamp_of(s));
    say_firm(out, m.firm);
    say_stock(out, m.symbol);
    end_line(out)
}

// d and n differ in their names alone.
fn show_blocking(out: Stdout, name: &[u8], s: &[u8]) -> io::Result<()>
    requires { length s.now ≡ 13 }
{
    let m = blocking_of(s);
    say_stamp(out, name, stamp_of(s));
    say_firm(out, m.firm);
    end_line(out)
}

// Prints a raw outbound stream from standard input, by the word `tape` a tape, or by the word `purge` what clients sent to the purge port, as one
// readable line a message. What is no message, and all that follows it, is counted at the end. By the word `table` it prints a table's bytes, as one
// line a used record behind those of its header.
//
// A table is read to its end; otherwise each line is written before the next read waits. Where standard output is full or closed, or nobody reads it
// any longer, the program says so on standard error and stops.
#![tactic(auto)]

mod bad;
mod entries;
mod line;
mod records;
mod requests;
mod stream;
mod tables;

ghost use Rattle.std.specs.Prelude.{◌≤◌, length};

use crate::entries::show_entry;
use crate::line::{end_line, say_number};
use crate::requests::show_request;
use crate::stream::show_message;
use crate::tables::show_table;
use feed::pieces::Pieces;
use feed::{begin, next, piece, rest};
use std::io;
use std::io::{Read, Stdin, Stdout};
use words::word_at;

fn show_piece(out: Stdout, pieces: Pieces, s: &[u8]) -> io::Result<()> {
    match pieces {
        Pieces::Entries => show_entry(out, s),
        Pieces::Messages => show_message(out, s),
        Pieces::Requests => show_request(out, s),
    }
}

// How many bytes are left over where no piece can follow. It is the last line, and nobody is told where that is not taken.
fn show_rest(out: Stdout, n: u64) {
    if 0 < n {
        say_number(out, b"left over: ", n);
        let _ = end_line(out);
    }
}

// Piece by piece, and what is left over.
fn show_all(rt: HostRuntime, pieces: Pieces) -> io::Result<()> {
    let mut buffer = [0u8; 4_096];
    let mut feed = begin();
    while 0 < feed.left {
        feed = next(&mut rt.stdin(), pieces, &mut buffer, feed);
        if 0 < feed.left {
            show_piece(rt.stdout(), pieces, piece(&buffer, feed))?;
        }
    }
    show_rest(rt.stdout(), rest(&mut rt.stdin(), &mut buffer, feed));
    Ok(())
}

// As much of the input as the buffer holds, or all of it where it ends before.
fn read_full(mut input: Stdin, buffer: &mut [u8]) -> usize
    ensures { result ≤ length buffer.new }
{
    let mut done = 0;
    while let Ok(n @ 1..) = input.read(&mut buffer[done..]) {
        done += n;
    }
    done
}

// The buffer is longer than any table, so that an input that is too long is seen to be.
fn show_whole(rt: HostRuntime) -> io::Result<()> {
    let mut buffer = [0u8; 65_536];
    let n = read_full(rt.stdin(), &mut buffer);
    show_table(rt.stdout(), &buffer[..n])
}

fn main(rt: HostRuntime) {
    let mut first = [0u8; 16];
    let mut second = [0u8; 16];
    let shown = match (word_at(&rt, 1, &mut first), word_at(&rt, 2, &mut second)) {
        (None, _) => show_all(rt, Pieces::Messages),
        (Some(b"tape"), None) => show_all(rt, Pieces::Entries),
        (Some(b"purge"), None) => show_all(rt, Pieces::Requests),
        (Some(b"table"), None) => show_whole(rt),
        _ => {
            let _ = rt
                .stderr()
                .write_all(b"show: the one word is tape, purge or table\n");
            return;
        }
    };
    if shown.is_err() {
        let _ = rt
            .stderr()
            .write_all(b"show: standard output takes no more\n");
    }
}

// The words that a program is started with: how long the ring is, how much its reader takes between two offers, and how many records there are.
//
// No contract can speak of what is typed. So a word is heard by a function of its own, and of all that was typed it is promised that what comes of
// it lies within the limits.
#![tactic(auto)]

mod numbers;

ghost use Rattle.std.specs.Prelude.{◌≡◌, ◌<◌, ◌≤◌, IfSome, length};
ghost use Rattle.octets.specs.Bytes.{same};
ghost use Rattle.table.specs.Table.{table_size};
ghost use Rattle.words.specs.Words.{usual, longest_table, word_of, takes, with_word, heard, Allowed};

use crate::numbers::number_in;
use desk::RING_SIZE;
use outbox::marks::{LONGEST_RING, SHORTEST_RING};
use std::env::FillError;
use std::rt::Env;
use table::sound::{MOST_RECORDS, table_size};

// What a program says on standard error to a word that it doesn't know.
pub const REFUSAL: [u8; 84] =
    *b"the words are ring N (80 to 65536), release K (1 to 65536) and records N (1 to 800)\n";

// Their limits are a clause, `Allowed`, and not a part of the type: `hear` takes any words.
#[derive(Clone, Copy)]
pub struct Words {
    pub ring: usize,
    // how many bytes the reader takes between two offers
    pub release: usize,
    pub records: usize,
}

// Without a word: the practice desk's ring and records. Its reader takes as much as the longest ring holds, so it empties the ring.
pub fn usual() -> Words
    ensures { result ≡ usual }
{
    Words {
        ring: RING_SIZE,
        release: LONGEST_RING,
        records: MOST_RECORDS,
    }
}

// How long the table is that the words ask for.
pub fn table_length(words: Words) -> usize
    requires { Allowed words }
    ensures { (result ≡ table_size words.records) × (result ≤ longest_table) }
{
    table_size(words.records)
}

#[derive(Clone, Copy)]
pub(crate) enum Word {
    Ring,
    Release,
    Records,
}

fn is_word(name: &[u8], word: &[u8]) -> bool
    ensures { result ≡ same name.now word.now }
{
    name == word
}

// A `match` of the three texts has eighteen ways to none of them, and each would have to be proved.
fn word_of(name: &[u8]) -> Option<Word>
    ensures { result ≡ word_of name.now }
{
    if is_word(name, b"ring") {
        Some(Word::Ring)
    } else if is_word(name, b"release") {
        Some(Word::Release)
    } else if is_word(name, b"records") {
        Some(Word::Records)
    } else {
        None
    }
}

// Whether n lies within the word's limits.
fn takes(word: Word, n: usize) -> bool
    ensures { result ≡ takes word n }
{
    match word {
        Word::Ring => (SHORTEST_RING <= n) & (n <= LONGEST_RING),
        Word::Release => (1 <= n) & (n <= LONGEST_RING),
        Word::Records => (1 <= n) & (n <= MOST_RECORDS),
    }
}

fn with_word(before: Words, word: Word, n: usize) -> Words
    ensures { result ≡ with_word before word n }
{
    match word {
        Word::Ring => Words { ring: n, ..before },
        Word::Release => Words {
            release: n,
            ..before
        },
        Word::Records => Words {
            records: n,
            ..before
        },
    }
}

// A word and the number behind it; `None` where they are not understood.
pub fn hear(before: Words, name: &[u8], value: &[u8]) -> Option<Words>
    ensures { result ≡ heard before name.now value.now }
{
    let word = word_of(name)?;
    let n = number_in(value)?;
    takes(word, n).then_some(with_word(before, word, n))
}

// The word at place i of what was typed, which then stands in `space`, where there is one. What is longer than any word is an empty one.
pub fn word_at<'a, R: Env>(rt: &R, i: usize, space: &'a mut [u8; 16]) -> Option<&'a [u8]>
    ensures { IfSome result (λ word. length word.now ≤ 16) }
{
    match rt.arg(i, space) {
        Ok(n) => Some(&space[..n]),
        Err(FillError::NotPresent) => None,
        Err(_) => Some(&[]),
    }
}

// The word at place i of what was typed, with its number, where there is one.
fn heard_at<R: Env>(rt: &R, before: Words, i: usize) -> Option<Words>
    requires { Allowed before × (i < 10) }
    ensures { IfSome result Allowed }
{
    let mut name = [0u8; 16];
    let mut value = [0u8; 16];
    match word_at(rt, i, &mut name) {
        Some(name) => hear(before, name, word_at(rt, i + 1, &mut value)?),
        None => Some(before),
    }
}

// All that was typed, but for the first word where it is the program's own; `None` where something is not understood. There are three words, so more
// than six places are too many.
pub fn typed<R: Env>(rt: &R, own: bool) -> Option<Words>
    ensures { IfSome result Allowed }
{
    let first = if own { 2 } else { 1 };
    if word_at(rt, first + 6, &mut [0; 16]).is_some() {
        return None;
    }
    let one = heard_at(rt, usual(), first)?;
    let two = heard_at(rt, one, first + 2)?;
    heard_at(rt, two, first + 4)
}

// A ring drawn in a line of text: 64 cells from its first byte to its last, and its marks. Its length and the two marks are three numbers here, as
// `drawing` has them.
ghost use Rattle.std.specs.Prelude.{◌≡◌, ◌<◌, ◌^◌};
ghost use Rattle.listing.specs.Lines.{Shows, Says};
ghost use Rattle.listing.specs.Drawing.{cell_count, first_place, is_held, is_read_place, cell, cells, drawing};

use crate::lines::Shown;
use crate::text::blank;

const CELLS: u8 = 64;

// The place at which cell k begins.
fn first_place(size: u32, k: u8) -> u64
    ensures { (result ≡ first_place size k) × (result < 2 ^ 40) }
{
    size as u64 * k as u64 / CELLS as u64
}

// Whether a place lies in the held part, which may go on at the ring's start.
fn is_held(size: u32, at: u32, held: u32, place: u64) -> bool
    requires { place < 2 ^ 40 }
    ensures { result ≡ is_held size at held place }
{
    let end = at as u64 + held as u64;
    ((at as u64 <= place) & (place < end)) | (place + (size as u64) < end)
}

// Whether the read place lies in cell k.
fn is_read_place(size: u32, at: u32, k: u8) -> bool
    requires { k < cell_count }
    ensures { result ≡ is_read_place size at k }
{
    (first_place(size, k) <= at as u64) & ((at as u64) < first_place(size, k + 1))
}

// The read place; otherwise held or free, as the cell's first byte is.
fn cell(size: u32, at: u32, held: u32, k: u8) -> u8
    requires { k < cell_count }
    ensures { result ≡ cell size at held k }
{
    if is_read_place(size, at, k) {
        return b'>';
    }
    if is_held(size, at, held, first_place(size, k)) {
        return b'#';
    }
    b'.'
}

fn cells(size: u32, at: u32, held: u32) -> Shown
    ensures { Says result (cells size at held cell_count) × (result.len ≡ cell_count) }
{
    let mut drawn = blank();
    for k in 0..CELLS {
        drawn = drawn.said(&[cell(size, at, held, k)]);
    }
    drawn
}

// A ring of so many bytes, its read place and its held count. Nobody asks whether they fit each other: a wrong ring can be drawn too.
pub fn ring_line(size: u32, at: u32, held: u32) -> Shown
    ensures { Shows result (drawing size at held) }
{
    cells(size, at, held)
        .named(b" at ", at as u64)
        .named(b" held ", held as u64)
        .named(b" of ", size as u64)
        .said(b"\n")
}

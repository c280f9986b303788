// The table's header as a value: the day, what has happened in it, and the settings with their firms. Read from the 60 bytes of its value,
// spelled as them, and judged.
#![tactic(auto, unfolding(crate::proofs::Opened::opened))]

pub mod firms;
pub mod settings;
pub mod sound;

ghost use Rattle.std.specs.Prelude.{◌≡◌, length};
ghost use Rattle.octets.specs.Bytes.{put};
ghost use Rattle.header.specs.Limits.{sum_place};
ghost use Rattle.header.specs.Header.{header_of, header_bytes, is_open_day};
ghost use Rattle.header.specs.Runs.{moments, standing};

use wire::shares::Total;

// How many bytes stand before the records.
pub const HEADER_SIZE: usize = 64;

// The header's value ends here; the four bytes behind it are the sum of open shares, which belongs to the records.
pub const SUM_PLACE: usize = 60;

// The form of the table, in byte 2.
pub const TABLE_FORM: u8 = 1;

// The day: before it begins, open, and closed.
pub const BEFORE: u8 = 0;

pub const OPEN: u8 = 1;

pub const CLOSED: u8 = 2;

// The first reference, and the one that is never given.
pub const FIRST_REFERENCE: u64 = 1;

pub const END_OF_REFERENCES: u64 = 1_000_000_000_000_000_000;

// The day stays its byte: a header holds every byte as it came, in a damaged table too (`header_of`).
#[derive(Clone, Copy)]
pub struct Header {
    pub day: u8,
    // how many firms are listed, of the row below: both are bytes of the table
    pub count: u8,
    // the blocked firms, a bit each, the lowest for the first
    pub blocked: u8,
    // how many records are used
    pub used: u32,
    // the last stamp
    pub last: u64,
    // the next reference
    pub reference: u64,
    pub threshold: Total,
    // eight firms of four bytes each; the first is the default
    pub firms: [u8; 32],
}

pub fn header_of(s: &[u8; SUM_PLACE]) -> Header
    ensures { result ≡ header_of s.now }
{
    Header {
        day: octets::byte_at(s, 0),
        count: octets::byte_at(s, 1),
        blocked: octets::byte_at(s, 3),
        used: octets::be32(s, 4),
        last: octets::be64(s, 8),
        reference: octets::be64(s, 16),
        threshold: Total(octets::be32(s, 24)),
        firms: octets::bytes_at(s, 28),
    }
}

// The bytes are written in two runs: what the steps of a day move, then what stands from the fresh call on but for the reference.
fn put_moments(s: &mut [u8; SUM_PLACE], h: Header)
    ensures { (s.new ≡ put s.old 0 (moments h)) × (length (moments h) ≡ 16) }
{
    octets::put_byte(s, 0, h.day);
    octets::put_byte(s, 1, h.count);
    octets::put_byte(s, 2, TABLE_FORM);
    octets::put_byte(s, 3, h.blocked);
    octets::put_be32(s, 4, h.used);
    octets::put_be64(s, 8, h.last);
}

fn put_standing(s: &mut [u8; SUM_PLACE], h: Header)
    ensures { (s.new ≡ put s.old 16 (standing h)) × (length (standing h) ≡ 44) }
{
    octets::put_be64(s, 16, h.reference);
    octets::put_be32(s, 24, h.threshold.0);
    octets::put_array(s, 28, h.firms);
}

// The bytes of the header's value, over what is there.
pub fn put_header(s: &mut [u8; SUM_PLACE], h: Header)
    ensures { (s.new ≡ header_bytes h) × (length (header_bytes h) ≡ sum_place) }
{
    put_moments(s, h);
    put_standing(s, h);
}

pub fn is_open_day(h: Header) -> bool
    ensures { result ≡ is_open_day h }
{
    h.day == OPEN
}

// Texts, and bytes at places that need not be there.
use std::io::Cursor;

// What came of a script, in words.
pub(crate) type Text = Cursor<[u8; 160]>;

// Writes the bytes at a place, where they fit.
pub(crate) fn put(to: &mut [u8], at: usize, bytes: &[u8]) {
    if let Some(rest) = to.get_mut(at..)
        && let Some(place) = rest.get_mut(..bytes.len())
    {
        place.copy_from_slice(bytes);
    }
}

// The bytes from `from` on and before `end`; none where these are no places.
pub(crate) fn part(s: &[u8], from: usize, end: usize) -> &[u8] {
    s.get(from..end).unwrap_or(&[])
}

// The byte at a place; a question mark past the end.
pub(crate) fn letter(s: &[u8], at: usize) -> u8 {
    s.get(at).copied().unwrap_or(b'?')
}

// The number in the four bytes at a place; 0 past the end.
pub(crate) fn number(s: &[u8], at: usize) -> u64 {
    match part(s, at, at.saturating_add(4)) {
        [a, b, c, d] => u32::from_be_bytes([*a, *b, *c, *d]) as u64,
        _ => 0,
    }
}

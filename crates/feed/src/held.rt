// The bytes that were read and are still held: where they stand in the buffer.
ghost use Rattle.std.specs.Prelude.{◌≡◌};
ghost use Rattle.feed.specs.Feed.{unread, past};

// They stand from `at` on and before `end`. Marks that lie outside the buffer hold nothing.
#[derive(Clone, Copy)]
pub(crate) struct Held {
    pub at: usize,
    pub end: usize,
}

pub(crate) fn unread(buffer: &[u8], held: Held) -> &[u8]
    ensures { result.now ≡ unread buffer.now held }
{
    buffer.get(held.at..held.end).unwrap_or(&[])
}

// The first n of them were handed out.
pub(crate) fn past(held: Held, n: usize) -> Held
    ensures { result ≡ past held n }
{
    let left = held.end.saturating_sub(held.at).saturating_sub(n);
    Held {
        at: held.end - left,
        ..held
    }
}

// The kinds of entry and the length that each fixes.
ghost use Rattle.std.specs.Prelude.{◌≡◌};
ghost use Rattle.tape.specs.Kinds.{kind_by, kind_of, layout_of, entry_length};

// By what an entry does, in the order O U X M e c q p l f s h w d n; the last is every other byte, so that a kind
// is told of any byte, as `kind_by` and the theorems over it do. `as` numbers them in this order.
#[derive(Clone, Copy)]
pub enum Kind {
    Enters,
    Replaces,
    Cancels,
    Modifies,
    Executes,
    BookCancels,
    SelfMatches,
    Prioritises,
    TurnsLate,
    EndsCross,
    TellsDay,
    SetsStock,
    Purges,
    Disables,
    Enables,
    Unknown,
}

// Whole lengths, kind byte and stamp included, in that order, a constant table as it is asked for by name. Bytes, because a table is copied where it is indexed.
pub const LENGTHS: [u8; 16] = [
    56, 55, 27, 28, 40, 28, 36, 27, 23, 23, 10, 18, 21, 13, 13, 0,
];

#[tactic(auto, unfolding(crate::specs::Kinds::kind_by))]
impl From<u8> for Kind {
    ghost from_gives = { λ letter kind. kind ≡ kind_by letter };

    fn from(letter: u8) -> Kind {
        match letter {
            b'O' => Kind::Enters,
            b'U' => Kind::Replaces,
            b'X' => Kind::Cancels,
            b'M' => Kind::Modifies,
            b'e' => Kind::Executes,
            b'c' => Kind::BookCancels,
            b'q' => Kind::SelfMatches,
            b'p' => Kind::Prioritises,
            b'l' => Kind::TurnsLate,
            b'f' => Kind::EndsCross,
            b's' => Kind::TellsDay,
            b'h' => Kind::SetsStock,
            b'w' => Kind::Purges,
            b'd' => Kind::Disables,
            b'n' => Kind::Enables,
            _ => Kind::Unknown,
        }
    }
}

// The kind whose letter a byte is, by the name that the definition has.
pub fn kind_by(letter: u8) -> Kind
    ensures { result ≡ kind_by letter }
{
    Kind::from(letter)
}

// The kind of an entry; what has no byte has no kind.
#[tactic(auto, unfolding(crate::specs::Kinds::kind_of, crate::specs::Kinds::kind_by))]
pub fn kind_of(entry: &[u8]) -> Kind
    ensures { result ≡ kind_of entry.now }
{
    match entry {
        [letter, ..] => kind_by(*letter),
        [] => Kind::Unknown,
    }
}

// The length that a kind fixes; 0 for what is no kind.
pub fn length_of(kind: Kind) -> usize
    ensures { result ≡ (layout_of kind).size }
{
    LENGTHS[kind as usize] as usize
}

// The same for the kind's letter, as a driver that cuts a tape has it: a number, 0 for no kind, as the C door hands it on (`pq_entry_length`).
#[tactic(auto, unfolding(crate::specs::Kinds::entry_length))]
pub fn entry_length(letter: u8) -> usize
    ensures { result ≡ entry_length letter }
{
    length_of(kind_by(letter))
}

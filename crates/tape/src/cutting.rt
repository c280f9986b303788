// Cutting a tape into its entries: the kind byte says where an entry ends.
ghost use Rattle.std.specs.Prelude.{◌≡◌};
ghost use Rattle.tape.specs.Cutting.{cut_at};

use crate::kinds::entry_length;

// What stands at a place of a tape.
#[derive(Clone, Copy)]
pub enum Cut {
    // an entry of a known kind, all of it there; it ends before this place
    Whole(usize),
    // an entry of a known kind that the tape's end cuts off
    Short,
    // a byte that is no kind
    Unknown,
    // nothing: the tape ends here
    End,
}

// What stands at `at`. A tape that arrives in pieces is cut again at a Short place once more of it is there.
#[tactic(auto, unfolding(crate::specs::Cutting::cut_at))]
pub fn cut_at(tape: &[u8], at: usize) -> Cut
    ensures { result ≡ cut_at tape.now at }
{
    let Some(letter) = tape.get(at) else {
        return Cut::End;
    };
    let length = entry_length(*letter);
    if length == 0 {
        return Cut::Unknown;
    }
    if tape.len() - at < length {
        return Cut::Short;
    }
    Cut::Whole(at + length)
}

// What every call of the host answers, and the one file in which an answer becomes the paper's number and place.
#![tactic(auto)]

ghost use Rattle.std.specs.Prelude.{◌≡◌};
ghost use Rattle.answers.specs.Answer.{refusal_number, refusal_place, answer_number, answer_place};

// Why a call has changed nothing, in the paper's order of checking; the last two are a release's and a writer's. A bad field comes with the offset
// of its first bad byte.
#[derive(Clone, Copy, PartialEq, Eq)]
pub enum Refusal {
    NotSound,
    WrongRing,
    WrongStocks,
    Malformed,
    BadField(usize),
    TooEarly,
    UnlistedFirm,
    Ignored,
    NotLive,
    WrongMoment,
    WrongShares,
    Full,
    Blocked,
    NotHeld,
    NoRoom,
}

// Done, or refused. Only a call that is done has changed anything, and only an entry that comes to it goes on.
pub type Answer = Result<(), Refusal>;

impl Refusal {
    // The paper's number of a refusal. By name and not by `From`: a place is a number of it, too.
    pub fn number(self) -> u8
        ensures { result ≡ refusal_number self }
    {
        match self {
            Refusal::NotSound => 10,
            Refusal::WrongRing => 11,
            Refusal::WrongStocks => 14,
            Refusal::Malformed => 2,
            Refusal::BadField(_) => 3,
            Refusal::TooEarly => 4,
            Refusal::UnlistedFirm => 15,
            Refusal::Ignored => 1,
            Refusal::NotLive => 5,
            Refusal::WrongMoment => 7,
            Refusal::WrongShares => 6,
            Refusal::Full => 8,
            Refusal::Blocked => 9,
            Refusal::NotHeld => 12,
            Refusal::NoRoom => 13,
        }
    }

    // The place that it tells; 0 where it tells none.
    pub fn place(self) -> usize
        ensures { result ≡ refusal_place self }
    {
        match self {
            Refusal::BadField(at) => at,
            _ => 0,
        }
    }
}

// The paper's number of an answer.
pub fn number(answer: Answer) -> u8
    ensures { result ≡ answer_number answer }
{
    match answer {
        Ok(()) => 0,
        Err(refusal) => refusal.number(),
    }
}

// The place that an answer tells; 0 where it tells none.
pub fn place(answer: Answer) -> usize
    ensures { result ≡ answer_place answer }
{
    match answer {
        Ok(()) => 0,
        Err(refusal) => refusal.place(),
    }
}

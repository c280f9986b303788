// s: the day begins or ends.
ghost use Rattle.std.specs.Prelude.{◌≡◌};
ghost use Rattle.market.specs.Day.{system_rule};

use answers::Refusal;
use header::{BEFORE, CLOSED, Header, OPEN};
use rules::plan::{Decision, beginning};
use tape::entry::System;

pub fn system(h: Header, e: System) -> Decision
    ensures { result ≡ system_rule h e }
{
    match (e.event, h.day) {
        (b'S', BEFORE) => beginning(OPEN, e.event),
        (b'E', OPEN) => beginning(CLOSED, e.event),
        _ => Err(Refusal::WrongMoment),
    }
}

// The twelve messages that the host sends, read and written back.
ghost use Rattle.std.specs.Prelude.{◌≡◌};
ghost use Rattle.wire.specs.Messages.{outbound};
ghost use Rattle.echo.specs.Echo.{answer_among, echoed_among};

use crate::message::echo_as;
use answers::{Answer, Refusal};
use outbound::accepted::Accepted;
use outbound::aiq_cancelled::AiqCancelled;
use outbound::broken_trade::BrokenTrade;
use outbound::cancel_pending::CancelPending;
use outbound::cancel_reject::CancelReject;
use outbound::canceled::Canceled;
use outbound::executed::Executed;
use outbound::modified::Modified;
use outbound::priority_update::PriorityUpdate;
use outbound::rejected::Rejected;
use outbound::replaced::Replaced;
use outbound::system_event::SystemEvent;
use wire::messages::first_byte;

// By the type.
pub(crate) fn echo_outbound(s: &[u8], out: &mut [u8]) -> Answer
    ensures { (result ≡ answer_among outbound s.now out.old) × (out.new ≡ echoed_among outbound s.now out.old) }
{
    let letter = first_byte(s);
    match letter {
        b'S' => echo_as::<SystemEvent>(s, out),
        b'A' => echo_as::<Accepted>(s, out),
        b'U' => echo_as::<Replaced>(s, out),
        b'C' => echo_as::<Canceled>(s, out),
        b'D' => echo_as::<AiqCancelled>(s, out),
        b'E' => echo_as::<Executed>(s, out),
        b'B' => echo_as::<BrokenTrade>(s, out),
        b'J' => echo_as::<Rejected>(s, out),
        b'P' => echo_as::<CancelPending>(s, out),
        b'I' => echo_as::<CancelReject>(s, out),
        b'T' => echo_as::<PriorityUpdate>(s, out),
        b'M' => echo_as::<Modified>(s, out),
        _ => Err(Refusal::Malformed),
    }
}

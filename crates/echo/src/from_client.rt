// The four messages that a client sends, read and written back.
ghost use Rattle.std.specs.Prelude.{◌≡◌};
ghost use Rattle.wire.specs.Messages.{inbound};
ghost use Rattle.echo.specs.Echo.{answer_among, echoed_among};

use crate::message::echo_as;
use answers::{Answer, Refusal};
use inbound::cancel_order::CancelOrder;
use inbound::enter_order::EnterOrder;
use inbound::modify_order::ModifyOrder;
use inbound::replace_order::ReplaceOrder;
use wire::messages::first_byte;

// By the type.
pub(crate) fn echo_inbound(s: &[u8], out: &mut [u8]) -> Answer
    ensures { (result ≡ answer_among inbound s.now out.old) × (out.new ≡ echoed_among inbound s.now out.old) }
{
    let letter = first_byte(s);
    match letter {
        b'O' => echo_as::<EnterOrder>(s, out),
        b'U' => echo_as::<ReplaceOrder>(s, out),
        b'X' => echo_as::<CancelOrder>(s, out),
        b'M' => echo_as::<ModifyOrder>(s, out),
        _ => Err(Refusal::Malformed),
    }
}

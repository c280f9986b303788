// Reading any of the sixteen messages and writing it back: what a client's author tries a codec with.
#![tactic(auto)]

mod from_client;
mod from_host;
mod message;

ghost use Rattle.std.specs.Prelude.{◌≡◌};
ghost use Rattle.echo.specs.Echo.{message_answer, message_echoed};

use answers::Answer;
use from_client::echo_inbound;
use from_host::echo_outbound;

// U and M are read as inbound or outbound, as the caller says.
pub fn echo(inbound: bool, s: &[u8], out: &mut [u8]) -> Answer
    ensures { (result ≡ message_answer inbound s.now out.old) × (out.new ≡ message_echoed inbound s.now out.old) }
{
    if inbound {
        return echo_inbound(s, out);
    }
    echo_outbound(s, out)
}

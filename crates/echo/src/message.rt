// One message read and written back, whichever it is.
ghost use Rattle.std.specs.Prelude.{◌≡◌};
ghost use Rattle.echo.specs.Echo.{echo_answer, echoed};

use answers::Answer;
use wire::body::{Written, read, write};

pub(crate) fn echo_as<M: Written>(s: &[u8], out: &mut [u8]) -> Answer
    ensures { (result ≡ echo_answer M.Body.layout s.now out.old) × (out.new ≡ echoed M.Body.layout s.now out.old) }
{
    let m = read::<M>(s).legal()?;
    write(out, m)
}

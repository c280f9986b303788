// A number as it is typed: decimal digits and nothing else. (`parse` would take a sign in front, too.)
ghost use Rattle.std.specs.Prelude.{◌≡◌, ◌≤◌, IfSome};
ghost use Rattle.outbox.specs.Limits.{longest_ring};
ghost use Rattle.words.specs.Words.{with_digit, number_in};

// No word takes a larger one.
const LARGEST: usize = 65_536;

// The number with one digit more, where that is a digit and the number is none that is too large for every word.
fn with_digit(n: usize, digit: u8) -> Option<usize>
    requires { n ≤ longest_ring }
    ensures { (result ≡ with_digit n digit) × IfSome result (λ m. m ≤ longest_ring) }
{
    let more = match digit {
        b'0'..=b'9' => n * 10 + (digit - b'0') as usize,
        _ => return None,
    };
    (more <= LARGEST).then_some(more)
}

// No digit at all is 0, which no word takes either.
pub(crate) fn number_in(text: &[u8]) -> Option<usize>
    ensures { result ≡ number_in text.now }
{
    let mut n = 0;
    for digit in text {
        n = with_digit(n, *digit)?;
    }
    Some(n)
}

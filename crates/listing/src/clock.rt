// A stamp as the time of day.
ghost use Rattle.std.specs.Prelude.{◌≡◌, ◌%◌};
ghost use Rattle.io.specs.Digits.{hex_digit_ascii, last_digits};
ghost use Rattle.listing.specs.Clock.{clock};

// The last decimal digit.
fn digit(n: u64) -> u8
    ensures { result ≡ hex_digit_ascii (n % 10) }
{
    b'0' + (n % 10) as u8
}

// The last N decimal digits, zeros in front.
pub(crate) fn digits<const N: usize>(n: u64) -> [u8; N]
    ensures { result ≡ last_digits 10 N n }
{
    let mut digits = [b'0'; N];
    let mut rest = n;
    for k in (0..N).rev() {
        digits[k] = digit(rest);
        rest /= 10;
    }
    digits
}

// Nanoseconds since midnight as hh:mm:ss.nnnnnnnnn.
pub fn clock(stamp: u64) -> [u8; 18]
    ensures { result ≡ clock stamp }
{
    let seconds = stamp / 1_000_000_000;
    let minutes = seconds / 60;
    let [h1, h2] = digits::<2>(minutes / 60);
    let [m1, m2] = digits::<2>(minutes % 60);
    let [s1, s2] = digits::<2>(seconds % 60);
    let [n1, n2, n3, n4, n5, n6, n7, n8, n9] = digits::<9>(stamp % 1_000_000_000);
    [
        h1, h2, b':', m1, m2, b':', s1, s2, b'.', n1, n2, n3, n4, n5, n6, n7, n8, n9,
    ]
}

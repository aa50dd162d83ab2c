// The values of numbers as they are written.
ghost use Rattle.std.specs.Prelude.{◌≡◌, ◌≤◌, ℤ};
ghost use Rattle.script_syntax.specs.Numbers.{digit_of, magnitude_of, value_of};

// The digit that a byte says.
fn digit(b: u8) -> u16
    ensures value { result ≡ digit_of b }
    ensures small { result ≤ 207 }
{
    u16::from(b.saturating_sub(b'0'))
}

// The value of one to three digits. Patterns and no fold: they bound the sum, as the callers' slices do not.
fn magnitude(digits: &[u8]) -> u16
    ensures value { result ≡ magnitude_of digits.now }
    ensures small { result ≤ 22977 }
{
    match digits {
        [a] => digit(*a),
        [a, b] => 10 * digit(*a) + digit(*b),
        [a, b, c] => 100 * digit(*a) + 10 * digit(*b) + digit(*c),
        _ => 0,
    }
}

/// The value of a number with its minus.
pub(crate) fn value(bytes: &[u8]) -> i16
    ensures { result ≡ value_of bytes.now }
{
    match bytes {
        [b'-', digits @ ..] => -(magnitude(digits) as i16),
        _ => magnitude(bytes) as i16,
    }
}

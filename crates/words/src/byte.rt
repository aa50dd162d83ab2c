// What a byte of a text is, and how many of a kind a text begins with.
ghost use Rattle.std.specs.Prelude.{◌≡◌, ◌≤◌, length};
ghost use Rattle.std.specs.List.{prefix_len};
ghost use Rattle.words.specs.Runs.{blank, letter, digit, in_name};

/// Whether a byte separates words: a tab, a line feed, a carriage return or a space.
fn is_blank(b: u8) -> bool
    ensures { result ≡ blank b }
{
    b == b'\t' || b == b'\n' || b == b'\r' || b == b' '
}

/// Whether a byte is a letter.
pub(crate) fn is_letter(b: u8) -> bool
    ensures { result ≡ letter b }
{
    b.is_ascii_alphabetic()
}

/// Whether a byte is a digit.
pub(crate) fn is_digit(b: u8) -> bool
    ensures { result ≡ digit b }
{
    b.is_ascii_digit()
}

/// Whether a name goes on with a byte: a letter, a digit or an underscore.
fn is_in_name(b: u8) -> bool
    ensures { result ≡ in_name b }
{
    is_letter(b) || is_digit(b) || b == b'_'
}

/// How many blanks a text begins with.
// One function for each kind, since with the kind as a closure the clause did not close.
pub(crate) fn blanks(bytes: &[u8]) -> usize
    ensures within { result ≤ length bytes.now }
    ensures value { result ≡ prefix_len blank bytes.now }
{
    bytes.iter().take_while(|b| is_blank(**b)).count()
}

/// How many digits a text begins with.
pub(crate) fn digits(bytes: &[u8]) -> usize
    ensures within { result ≤ length bytes.now }
    ensures value { result ≡ prefix_len digit bytes.now }
{
    bytes.iter().take_while(|b| is_digit(**b)).count()
}

/// How many bytes of a name a text begins with.
pub(crate) fn name_bytes(bytes: &[u8]) -> usize
    ensures within { result ≤ length bytes.now }
    ensures value { result ≡ prefix_len in_name bytes.now }
{
    bytes.iter().take_while(|b| is_in_name(**b)).count()
}

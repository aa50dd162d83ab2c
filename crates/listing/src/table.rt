// Lines of tables, in which a text stands by its bytes, two hexadecimal digits each.
ghost use Rattle.std.specs.Prelude.{◌≡◌, ◌<◌, cond, map, filter, IfOk, IfSome};
ghost use Rattle.listing.specs.Lines.{bytes_of, digit_value, is_digit, pairs_of};

use std::alloc::{AllocError, Global};

// What a hexadecimal digit stands for, 0 to 9 or a to f; none for another byte.
fn digit(b: u8) -> Option<u8>
    ensures answer { result ≡ cond (is_digit b) (Some (digit_value b)) None }
    ensures within { IfSome result (λ d. d < 16) }
{
    match b {
        b'0'..=b'9' => Some(b - b'0'),
        b'a'..=b'f' => Some(b - b'a' + 10),
        _ => None,
    }
}

/// The bytes that a line spells, two hexadecimal digits each. Other bytes are passed over, and so is a last digit without
/// a second.
pub fn decoded(heap: Global, line: &str) -> Result<Vec<u8>, AllocError>
    ensures { IfOk result (λ v. v.items ≡ bytes_of (map digit_value (filter is_digit line.now))) }
{
    let mut bytes = Vec::new(heap);
    let mut high = None;
    for b in line.as_bytes() {
        if let Some(d) = digit(*b) {
            match high {
                None => high = Some(d),
                Some(h) => {
                    bytes.push(h * 16 + d)?;
                    high = None;
                }
            }
        }
    }
    Ok(bytes)
}

/// The hexadecimal digits of a line. Other bytes are passed over, and so is a last digit without a second.
pub fn digits(heap: Global, line: &str) -> Result<Vec<u8>, AllocError>
    ensures { IfOk result (λ v. v.items ≡ pairs_of (filter is_digit line.now)) }
{
    let mut digits = line
        .as_bytes()
        .iter()
        .copied()
        .filter(|b| digit(*b).is_some())
        .collect::<Vec<u8>>(heap)?;
    digits.truncate(digits.len() / 2 * 2);
    Ok(digits)
}

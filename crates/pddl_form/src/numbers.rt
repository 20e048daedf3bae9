//! The numbers that words spell.
ghost use Rattle.std.specs.Prelude.{◌≡◌, ◌≤◌, length};
ghost use Rattle.pddl_form.specs.Numbers.{with_digit, whole_number, point_at, are_zeros, number};

/// The number with one more digit, unless the byte isn't a digit or the number passes 4294967295.
fn with_digit(number: u32, byte: u8) -> Option<u32>
    ensures { result ≡ with_digit number byte }
{
    if byte < b'0' || b'9' < byte {
        return None;
    }
    let longer = u64::from(number) * 10 + u64::from(byte - b'0');
    if longer < 4294967296 {
        Some(longer as u32)
    } else {
        None
    }
}

/// The number that digits spell.
fn whole_number(digits: &[u8]) -> Option<u32>
    ensures { result ≡ whole_number digits.now }
{
    if digits.is_empty() {
        return None;
    }
    let mut number = 0;
    for byte in digits {
        match with_digit(number, *byte) {
            Some(longer) => number = longer,
            None => return None,
        }
    }
    Some(number)
}

/// The place of the first point of a text, or else its length.
fn point_at(text: &[u8]) -> usize
    ensures at { result ≡ point_at text.now }
    ensures within { result ≤ length text.now }
{
    for (place, byte) in text.iter().enumerate() {
        if *byte == b'.' {
            return place;
        }
    }
    text.len()
}

fn are_zeros(bytes: &[u8]) -> bool
    ensures { result ≡ are_zeros bytes.now }
{
    bytes.iter().all(|byte| *byte == b'0')
}

/// The number that a word spells: digits, perhaps with a point and any zeros after them. The digits
/// before the point spell 0 to 4294967295.
pub fn number_of(text: &[u8]) -> Option<u32>
    ensures { result ≡ number text.now }
{
    let point = point_at(text);
    if point == text.len() {
        return whole_number(text);
    }
    if are_zeros(&text[point + 1..]) {
        whole_number(&text[..point])
    } else {
        None
    }
}

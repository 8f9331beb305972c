// The numbers of text files, and their checksum lines.
ghost use Rattle.std.specs.Prelude.{◌≡◌, ◌≤◌, length, map, Some, None, if◌then◌else◌};
ghost use Rattle.std.specs.List.{list_all};
ghost use Rattle.std.specs.Char.{is_ascii_digit, digit_value};
ghost use Rattle.std.specs.Int.Digits.{number_from_digits};
ghost use Rattle.text_lines.specs.Words.{number, is_checksum};

/// The value of at most 10 decimal digits; None where another byte stands among them.
fn value_of(digits: &[u8]) -> Option<u64>
    requires { length digits.now ≤ 10 }
    ensures { result ≡ (if list_all is_ascii_digit digits.now
        then Some (number_from_digits 10 (map digit_value digits.now)) else None) }
{
    let mut value: u64 = 0;
    for digit in digits {
        if !digit.is_ascii_digit() {
            return None;
        }
        value = value * 10 + u64::from(*digit - b'0');
    }
    Some(value)
}

/// The number of 1 to 10 decimal digits, where its value is at most 2,147,483,647. None where the bytes are no such
/// digits.
pub fn number(digits: &[u8]) -> Option<u32>
    ensures { result ≡ number digits.now }
{
    if digits.is_empty() || digits.len() > 10 {
        return None;
    }
    match value_of(digits) {
        Some(value) if value < 1 << 31 => Some(value as u32),
        _ => None,
    }
}

fn all_digits(s: &[u8]) -> bool
    ensures { result ≡ list_all is_ascii_digit s.now }
{
    for b in s {
        if !b.is_ascii_digit() {
            return false;
        }
    }
    true
}

/// Whether a line with this content is a checksum line: `checksum `, and exactly 20 decimal digits, whatever their
/// value.
pub fn is_checksum(content: &[u8]) -> bool
    ensures { result ≡ is_checksum content.now }
{
    content.starts_with(b"checksum ") && content.len() == 29 && all_digits(&content[9..])
}

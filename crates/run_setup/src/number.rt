// Numbers among the words.
ghost use Rattle.std.specs.Prelude.{◌≡◌, ◌≤◌, length};
ghost use Rattle.run_setup.specs.Settings.{value_of, number_of};

/// The value of at most 20 decimal digits; None where another byte stands among them.
fn value_of(digits: &[u8]) -> Option<u128>
    requires { length digits.now ≤ 20 }
    ensures { result ≡ value_of digits.now }
{
    let mut value: u128 = 0;
    for digit in digits {
        if !digit.is_ascii_digit() {
            return None;
        }
        value = value * 10 + u128::from(*digit - b'0');
    }
    Some(value)
}

/// The number of 1 to 20 decimal digits, which fits 64 bits.
pub(crate) fn number_of(word: &[u8]) -> Option<u64>
    ensures { result ≡ number_of word.now }
{
    if word.is_empty() || word.len() > 20 {
        return None;
    }
    match value_of(word) {
        Some(value) if value <= u128::from(u64::MAX) => Some(value as u64),
        _ => None,
    }
}

// The names of data in the store.
ghost use Rattle.std.specs.Prelude.{◌≡◌};
ghost use Rattle.std.specs.List.{list_all};
ghost use Rattle.std.specs.Char.{is_ascii_digit};
ghost use Rattle.mount_manifest.specs.Manifest.{is_file_name, is_part_end, ends_with};

fn all_digits(bytes: &[u8]) -> bool
    ensures { result ≡ list_all is_ascii_digit bytes.now }
{
    for byte in bytes {
        if !byte.is_ascii_digit() {
            return false;
        }
    }
    true
}

/// Whether these bytes are `.part` and one or more digits.
fn is_part_end(bytes: &[u8]) -> bool
    ensures { result ≡ is_part_end bytes.now }
{
    bytes.starts_with(b".part") && bytes.len() > 5 && all_digits(&bytes[5..])
}

fn ends_like_a_part(bytes: &[u8]) -> bool
    ensures { result ≡ ends_with is_part_end bytes.now }
{
    for from in 0..bytes.len() {
        if is_part_end(&bytes[from..]) {
            return true;
        }
    }
    false
}

/// Whether a file's data may have this name: 3 to 200 bytes that begin with `__` and are no name of a part.
pub fn is_file_name(bytes: &[u8]) -> bool
    ensures { result ≡ is_file_name bytes.now }
{
    bytes.len() >= 3 && bytes.len() <= 200 && bytes.starts_with(b"__") && !ends_like_a_part(bytes)
}

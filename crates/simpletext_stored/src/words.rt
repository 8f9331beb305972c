// What stands behind the mark of a line.
ghost use Rattle.std.specs.Prelude.{◌≡◌, ◌≤◌, length, drop};

/// What stands behind the first `n` bytes.
pub fn behind(s: &[u8], n: usize) -> &[u8]
    requires { n ≤ length s.now }
    ensures { result.now ≡ drop n s.now }
{
    &s[n..]
}

// Sets of documents as words that are taken one at a time, and counts as plain numbers.
ghost use Rattle.std.specs.Prelude.{◌≡◌, length};

/// Each word keeps the bits that the other's word of the same place has too.
pub fn and(words: &mut [u64], others: &[u64])
    requires { length others.now ≡ length words.old }
{
    for k in 0..words.len() {
        words[k] &= others[k];
    }
}

/// Each word takes the bits of the other's word of the same place.
pub fn or(words: &mut [u64], others: &[u64])
    requires { length others.now ≡ length words.old }
{
    for k in 0..words.len() {
        words[k] |= others[k];
    }
}

/// Each word loses the bits of the other's word of the same place.
pub fn and_not(words: &mut [u64], others: &[u64])
    requires { length others.now ≡ length words.old }
{
    for k in 0..words.len() {
        words[k] &= !others[k];
    }
}

/// How many bits of the words are set.
pub fn count(words: &[u64]) -> u64 {
    let mut count = 0u64;
    for word in words {
        count = count.wrapping_add(u64::from(word.count_ones()));
    }
    count
}

/// Whether place `i` of the words holds true.
pub fn holds(words: &[u64], i: usize) -> bool {
    match words.get(i / 64) {
        Some(word) => (*word >> (i % 64)) & 1 == 1,
        None => false,
    }
}

/// Counts each place that holds true once more.
pub fn add(counts: &mut [u32], words: &[u64]) {
    for i in 0..counts.len() {
        if holds(words, i) {
            counts[i] = counts[i].wrapping_add(1);
        }
    }
}

/// Whether the count of place `i` is at least `m`.
pub fn is_at_least(counts: &[u32], i: u32, m: u64) -> bool {
    match counts.get(i as usize) {
        Some(count) => u64::from(*count) >= m,
        None => false,
    }
}

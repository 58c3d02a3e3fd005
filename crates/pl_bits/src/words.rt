ghost use Rattle.std.specs.Prelude.{◌≡◌, ℕ, ◌*◌, ◌/◌, ◌%◌, ◌^◌, ◌<◌, ◌≤◌, IsTrue, bit_or, length, slice_index, slice_set};
ghost use Rattle.pl_bits.specs.Bits.{bits_of, has_bit, with_bit, without_bit, HasWords};
ghost use Rattle.pl_bits.specs.Rows.{trues};

/// Whether a bit of a row of words is set.
pub fn bit_of(words: &[u64], at: usize) -> bool
    requires { at < 64 * length words.now }
    ensures { result ≡ has_bit words.now at }
{
    (words[at / 64] >> (at % 64)) & 1 == 1
}

/// Sets a bit of a row of words.
pub fn set_bit(words: &mut Vec<u64>, at: usize)
    requires { at < 64 * length words.old.items }
    ensures { words.new.items ≡ slice_set words.old.items (at / 64) (with_bit (slice_index words.old.items (at / 64)) (at % 64)) }
{
    words[at / 64] |= 1 << (at % 64);
}

/// Clears a bit of a row of words.
pub fn clear_bit(words: &mut Vec<u64>, at: usize)
    requires { at < 64 * length words.old.items }
    ensures { words.new.items ≡ slice_set words.old.items (at / 64) (without_bit (slice_index words.old.items (at / 64)) (at % 64)) }
{
    words[at / 64] &= !(1 << (at % 64));
}

/// The bits of other words are set too.
pub(crate) fn add_words(words: &mut Vec<u64>, more: &[u64])
    ensures len { length words.new.items ≡ length words.old.items }
    ensures each { (i : ℕ) → i < length words.old.items →
        slice_index words.new.items i ≡ bit_or (slice_index words.old.items i) (slice_index more.now i) }
{
    for i in 0..words.len() {
        words[i] |= word_at(more, i);
    }
}

pub(crate) fn are_same(a: &[u64], b: &[u64]) -> bool
    ensures { IsTrue result → a.now ≡ b.now }
{
    a == b
}

/// How many of the first bits are set.
pub(crate) fn count_bits(words: &[u64], len: usize) -> usize
    requires { HasWords len words.now }
    ensures { result ≡ trues (bits_of words.now len) }
{
    let whole = len / 64;
    let mut count = 0;
    for i in 0..whole {
        count += words[i].count_ones() as usize;
    }
    count + low_bits(word_at(words, whole), len % 64).count_ones() as usize
}

// A word of a row; past the last one there is none of its bits.
fn word_at(words: &[u64], i: usize) -> u64
    ensures { result ≡ slice_index words.now i }
{
    if i < words.len() { words[i] } else { 0 }
}

// So many of the lowest bits of a word.
fn low_bits(word: u64, count: usize) -> u64
    requires { count < 64 }
    ensures { result ≡ word % 2 ^ count }
{
    word & ((1 << count) - 1)
}

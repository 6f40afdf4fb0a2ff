// Runs of words in lent byte slices: clearing, copying, moving. An index counts words.

ghost use Rattle.std.specs.Prelude.{◌≡◌, ◌+◌, ◌≤◌, length, take, drop, replicate};
ghost use Rattle.words.specs.Parts.{splice};
ghost use Rattle.words.specs.Moves.{Gap};
ghost use Rattle.words.specs.Words.{word_count, words_of};

use crate::{put_word, word_at};

// Zeros everywhere, in the bytes behind the last word too.
pub fn clear(s: &mut [u8])
    ensures zeroed { s.new ≡ replicate (length s.old) 0 }
    ensures zero_words { words_of s.new ≡ replicate (word_count s.old) 0 }
{
    s.fill(0);
}

// Zeros in n words from word `at` on.
pub fn clear_words(s: &mut [u8], at: usize, n: usize)
    requires { at + n ≤ word_count s.old }
    ensures { words_of s.new ≡ splice (words_of s.old) at (replicate n 0) }
{
    clear(&mut s[at * 4..(at + n) * 4]);
}

// Copies n words of src, from word `from` on, to dst from word `at` on.
// Word by word: `copy_from_slice` of a length that is not known calls memmove, which the archives for C do not need.
pub fn copy_words(dst: &mut [u8], at: usize, src: &[u8], from: usize, n: usize)
    requires { (at + n ≤ word_count dst.old) × (from + n ≤ word_count src.now) }
    ensures { words_of dst.new ≡ splice (words_of dst.old) at (take n (drop from (words_of src.now))) }
{
    for k in 0..n {
        put_word(dst, at + k, word_at(src, from + k));
    }
}

// Moves the words from `at` up to `end` n places up. The contract does not say what is left in the gap.
pub fn open_gap(t: &mut [u8], at: usize, end: usize, n: usize)
    requires { (at ≤ end) × (end + n ≤ word_count t.old) }
    ensures { Gap (words_of t.old) at end n (words_of t.new) }
{
    t.copy_within(at * 4..end * 4, (at + n) * 4);
}

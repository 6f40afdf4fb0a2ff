// Little-endian u32 words in lent byte slices: reading, and storing a word or a row. An index counts words.
#![tactic(auto)]

ghost use Rattle.std.specs.Prelude.{◌≡◌, ◌+◌, ◌≤◌, ◌<◌, set, get_or};
ghost use Rattle.words.specs.Parts.{splice};
ghost use Rattle.words.specs.Words.{word_count, words_of};

pub mod rows;
pub mod span;

// Reads word i.
pub fn word_at(s: &[u8], i: usize) -> u32
    requires { i < word_count s.now }
    ensures { result ≡ get_or (words_of s.now) i 0 }
{
    let at = i * 4;
    u32::from_le_bytes([s[at], s[at + 1], s[at + 2], s[at + 3]])
}

// Stores word i.
pub fn put_word(s: &mut [u8], i: usize, x: u32)
    requires { i < word_count s.old }
    ensures { words_of s.new ≡ set (words_of s.old) i x }
{
    let at = i * 4;
    s[at..at + 4].copy_from_slice(&x.to_le_bytes());
}

// Stores a row of N words from word i on.
pub fn put_row<const N: usize>(s: &mut [u8], i: usize, row: [u32; N])
    requires { i + N ≤ word_count s.old }
    ensures { words_of s.new ≡ splice (words_of s.old) i row.entry }
{
    for (k, x) in row.iter().enumerate() {
        put_word(s, i + k, *x);
    }
}

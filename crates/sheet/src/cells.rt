// Words of a byte slice, past whose end nothing is read or stored.

ghost use Rattle.std.specs.Prelude.{◌≡◌, get_or, set, replicate};
ghost use Rattle.words.specs.Words.{word_count, words_of};

// Word `at`; 0 past the end.
pub fn get(out: &[u8], at: usize) -> u32
    ensures { result ≡ get_or (words_of out.now) at 0 }
{
    if at < out.len() / 4 {
        words::word_at(out, at)
    } else {
        0
    }
}

// Stores word `at`; past the end nothing.
pub fn put(out: &mut [u8], at: usize, v: u32)
    ensures { words_of out.new ≡ set (words_of out.old) at v }
{
    if at < out.len() / 4 {
        words::put_word(out, at, v);
    }
}

// Zeros.
pub fn clear(out: &mut [u8])
    ensures { words_of out.new ≡ replicate (word_count out.old) 0 }
{
    words::span::clear(out);
}

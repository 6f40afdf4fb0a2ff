// The byte order: words read, and the bytes of a word stored.
#![tactic(auto)]

ghost use Rattle.std.specs.Prelude.{◌≡◌, true, [], ◌∷◌, length};
ghost use Rattle.words.specs.Words.{words_of};

use words::{put_word, word_at};

#[tactic(auto, unfolding(words::specs::Words::words_of))]
fn reads() {
    let t = [0x78u8, 0x56, 0x34, 0x12, 0xef, 0xcd, 0xab, 0x89, 0xff];
    check::expect(word_at(&t, 0) == 0x12345678);
    check::expect(word_at(&t, 1) == 0x89abcdef);
}

// A word stored in two words of zeros: whether its bytes are where they should be.
fn stores(t: &mut [u8]) -> bool
    requires { (length t.old ≡ 8) × (words_of t.old ≡ 0 ∷ 0 ∷ []) }
    ensures { result ≡ true }
{
    put_word(t, 1, 0x89abcdef);
    check::same(t, b"\x00\x00\x00\x00\xef\xcd\xab\x89")
}

#[tactic(auto, unfolding(words::specs::Words::words_of))]
fn main() {
    reads();
    let mut t = [0u8; 8];
    check::expect(stores(&mut t));
}

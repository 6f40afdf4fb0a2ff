// Gaps opened in the result tables for pieces that are merged into a register. The caller then writes their rows and those of their uses.

ghost use Rattle.std.specs.Prelude.{◌≡◌, ℕ, ◌+◌, ◌-◌, ◌*◌, ◌^◌, ◌≤◌, ◌<◌, length, get_or};
ghost use Rattle.words.specs.Words.{word_count, words_of};
ghost use Rattle.definition.specs.Types.{State};
ghost use Rattle.definition.specs.Admit.{register_at};
ghost use Rattle.virt_regs.specs.Encoding.{tables_end, counts_of, Holds};
ghost use Rattle.virt_regs.specs.Reads.{first_use};
ghost use Rattle.vregs_write.specs.Raised.{raised};
ghost use Rattle.vregs_write.specs.InsertFlat.{grown, lifted, Liftable};
ghost use Rattle.vregs_write.specs.Ask.{Ask, Gaps₂};
ghost use Rattle.vregs_write.specs.Opened.{Opened};

use definition::VirtReg;
use virt_regs::{Counts, OutLayout, pieces_of};
use words::{put_word, word_at};

// Where the gaps are: before which piece, and before which use.
#[derive(Clone, Copy)]
pub struct Gaps {
    pub pieces: usize,
    pub uses: usize,
}

// Adds m to word `at` and to each s words behind it, n of them.
fn raise(out: &mut [u8], at: usize, s: usize, n: usize, m: u32)
    requires in_table { (at + n * s < word_count out.old + s) × (0 < s) × (s ≤ 16) }
    requires no_overflow { (k : ℕ) → k < n → get_or (words_of out.old) (at + k * s) 0 + m < 2 ^ 32 }
    ensures { words_of out.new ≡ raised m s (words_of out.old) at n }
{
    for k in 0..n {
        let j = at + k * s;
        put_word(out, j, word_at(out, j) + m);
    }
}

// The first use of piece i, or the use behind all where i is the piece behind all.
fn first_use_of(out: &[u8], ol: OutLayout, c: Counts, i: usize) -> usize
    requires { (tables_end ol ≤ word_count out.now) × (i ≤ c.segs) × (c.segs ≤ ol.segs) }
    ensures { (st : State) → Holds ol (words_of out.now) st → c ≡ counts_of st → result ≡ first_use st i }
{
    if i == c.segs {
        return c.uses;
    }
    word_at(out, ol.seg_base() + (i * 7 + 5)) as usize
}

// Register v has n pieces more; its hint is set where `hint` is.
fn grow_register(out: &mut [u8], v: usize, n: u32, hint: bool)
    requires { (v * 8 + 8 ≤ word_count out.old) × (get_or (words_of out.old) (v * 8 + 7) 0 + n < 2 ^ 32) }
    ensures { words_of out.new ≡ grown v n hint (words_of out.old) }
{
    let at = v * 8;
    let count = word_at(out, at + 7);
    put_word(out, at + 7, count + n);
    if hint {
        put_word(out, at + 5, 1);
    }
}

// The rows that stay, for np pieces with nu uses more in register v, before piece p.
fn lift(out: &mut [u8], ol: OutLayout, c: Counts, v: usize, p: usize, np: u32, nu: u32, hint: bool)
    requires { (tables_end ol ≤ word_count out.old) × Liftable ol c v p np nu (words_of out.old) }
    ensures { words_of out.new ≡ lifted ol c v p np nu hint (words_of out.old) }
{
    raise(out, ol.seg_base() + (p * 7 + 5), 7, c.segs - p, nu);
    raise(out, (v + 1) * 8 + 6, 8, c.regs - (v + 1), np);
    grow_register(out, v, np, hint);
}

// Room between the rows: np pieces before piece p, nu uses before use u.
fn open_rows(out: &mut [u8], ol: OutLayout, c: Counts, p: usize, u: usize, np: usize, nu: usize)
    requires { (tables_end ol ≤ word_count out.old) × (p ≤ c.segs) × (u ≤ c.uses) × (c.segs + np ≤ ol.segs) × (c.uses + nu ≤ ol.uses) }
    ensures { Gaps₂ ol c p u np nu (words_of out.old) (words_of out.new) }
{
    let a = ol.seg_base();
    words::span::open_gap(out, a + p * 7, a + c.segs * 7, np * 7);
    let b = ol.use_base();
    words::span::open_gap(out, b + u * 6, b + c.uses * 6, nu * 6);
}

// Opens gaps for np pieces, with nu uses in all and a fixed hint where `hint` is, before piece k of register v.
pub fn open_gaps(
    out: &mut [u8],
    ol: OutLayout,
    c: Counts,
    v: VirtReg,
    k: usize,
    np: usize,
    nu: usize,
    hint: bool,
) -> Gaps
    requires { Ask ol (words_of out.old) c v k np nu }
    ensures { (st : State) → Holds ol (words_of out.old) st → c ≡ counts_of st → v.0 < length st.registers → k ≤ length (register_at st v).pieces
        → Opened ol st c v k np nu hint result.pieces result.uses (words_of out.new) }
{
    let s = pieces_of(out, v);
    let p = s.first + k;
    let u = first_use_of(out, ol, c, p);
    lift(out, ol, c, v.0 as usize, p, np as u32, nu as u32, hint);
    open_rows(out, ol, c, p, u, np, nu);
    Gaps { pieces: p, uses: u }
}

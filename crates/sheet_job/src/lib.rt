// The job that a job sheet's table stands for.
#![tactic(auto)]

ghost use Rattle.std.specs.Prelude.{◌≡◌, ◌≤◌, ◌<◌};
ghost use Rattle.words.specs.Words.{word_count, words_of};
ghost use Rattle.sheet_job.specs.Fixed.{table_at, fixed_layout};

use job::{Layout, Table};

// The table whose count is word i.
#[tactic(auto, unfolding(crate::specs::Fixed::table_at))]
fn table_at(t: &[u8], i: usize, at: usize) -> Table
    requires { i < word_count t.now }
    ensures { result ≡ table_at (words_of t.now) i at }
{
    Table {
        at: at,
        n: words::word_at(t, i) as usize,
    }
}

// Where the reader of job sheets puts the tables of a job.
#[tactic(auto, unfolding(crate::specs::Fixed::fixed_layout))]
pub fn fixed_layout(t: &[u8]) -> Layout
    requires { 10 ≤ word_count t.now }
    ensures { result ≡ fixed_layout (words_of t.now) }
{
    Layout {
        opts: 10,
        banks: table_at(t, 0, 14),
        classes: table_at(t, 1, 22),
        regs: table_at(t, 2, 150),
        blocks: table_at(t, 3, 406),
        values: table_at(t, 4, 1430),
        vgroups: table_at(t, 5, 4502),
        operands: table_at(t, 6, 6806),
        hints: table_at(t, 7, 10902),
        segments: table_at(t, 8, 13974),
        uses: table_at(t, 9, 19094),
    }
}

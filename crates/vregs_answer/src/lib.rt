// The answer to a job sheet that was read: the refusal that its verdict is, or the build of its table.
#![tactic(auto)]

ghost use Rattle.std.specs.Prelude.{◌≡◌, ◌≤◌, length};
ghost use Rattle.words.specs.Words.{word_count, words_of};
ghost use Rattle.job.specs.Regions.{max_work};
ghost use Rattle.sheet_rules.specs.Places.{table_words};
ghost use Rattle.sheet.specs.Front.{formed, open_form};
ghost use Rattle.sheet.specs.Stream.{Streamed};
ghost use Rattle.vregs_answer.specs.Sheet.{vregs_tables, Answers};

pub mod replay;
pub mod report;
pub mod run;
mod space;

use build_answer::{BuildEnd, refuse};
use sheet::either::Reading;
pub use space::Space;
use virt_regs::OutLayout;

// The result tables of `vregs`: 4,096 registers and segments, 8,192 uses, 512 groups; 460,800 bytes.
pub fn vregs_tables() -> OutLayout
    ensures { result ≡ vregs_tables }
{
    OutLayout {
        regs: 4096,
        segs: 4096,
        uses: 8192,
        groups: 512,
    }
}

// The definition's answer to every sheet that leads the reader to this state and these tables.
pub fn answer_table(
    cur: Reading,
    table: &[u8],
    written: &[u8],
    out: &mut [u8],
    work: &mut [u8],
) -> BuildEnd
    requires { Streamed (open_form table_words 1536) (formed cur (words_of table.now) (words_of written.now)) × (word_count table.now ≡ table_words) × (word_count written.now ≡ 1536) × (length out.old ≡ 460800) × (max_work ≤ word_count work.old) }
    ensures { Answers (length out.old) cur (words_of table.now) (words_of written.now) result out.new }
{
    words::span::clear(out);
    match sheet_verdict::judge(cur, table, written, work) {
        Ok(e) => build::build_entered(table, e, out, vregs_tables(), work),
        Err(r) => refuse(r.number()),
    }
}

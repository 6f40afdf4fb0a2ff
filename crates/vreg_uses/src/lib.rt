// Use lists over a job and a result. "A use list shows its part of the job's uses or of the added ones".
#![tactic(auto)]

ghost use Rattle.std.specs.Prelude.{◌≡◌, ◌+◌, ◌*◌, ◌≤◌, ◌<◌};
ghost use Rattle.words.specs.Words.{word_count, words_of};
ghost use Rattle.job.specs.JobWords.{words_in};
ghost use Rattle.virt_regs.specs.Encoding.{tables_end};
ghost use Rattle.vreg_uses.specs.Shown.{part_list, piece_list, Listed, shown_words};

use job::Job;
use set_part::SetPart;
use uses::lists::{Source, UseList};
use virt_regs::OutLayout;

// While a set is built: the uses of a part are a part of the job's.
#[tactic(auto, unfolding(crate::specs::Shown::part_list))]
pub fn part_list(sp: SetPart) -> UseList
    requires { sp.first ≤ sp.end }
    ensures { result ≡ part_list sp }
{
    UseList {
        source: Source::Job,
        first: sp.first,
        count: sp.end - sp.first,
    }
}

// In a result: the uses of piece i stand among the added ones, the result's own.
#[tactic(auto, unfolding(crate::specs::Shown::piece_list))]
pub fn piece_list(out: &[u8], ol: OutLayout, i: usize) -> UseList
    requires { (tables_end ol ≤ word_count out.now) × (i < ol.segs) }
    ensures { result ≡ piece_list (words_of out.now) ol i }
{
    let row = virt_regs::piece_at(out, ol, i);
    UseList {
        source: Source::Added,
        first: row.first as usize,
        count: row.uses as usize,
    }
}

// The rows of a list: a part of the job's use table or of the result's.
pub fn list_rows<'a>(job: &Job<'a>, out: &'a [u8], ol: OutLayout, list: UseList) -> &'a [u8]
    requires { (tables_end ol ≤ word_count out.now) × Listed job.now.lay ol list }
    ensures { words_of result.now ≡ shown_words (words_in job.now) job.now.lay (words_of out.now) ol list }
{
    let lay = &job.lay;
    let at = lay.uses.at;
    let end = at + lay.uses.n * 6;
    let base = ol.use_base();
    let behind = ol.group_base();
    uses::lists::use_list(
        &job.bytes[at * 4..end * 4],
        &out[base * 4..behind * 4],
        list,
    )
}

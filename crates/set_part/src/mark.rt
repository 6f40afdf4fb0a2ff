// Turned uses of a working part (builder.rs): the marks, a use under its mark, and what is kept of a use that is turned.

ghost use Rattle.std.specs.Prelude.{◌≡◌, ◌+◌, ◌≤◌, ◌<◌, set};
ghost use Rattle.words.specs.Words.{word_count, words_of};
ghost use Rattle.job.specs.JobWords.{words_in};
ghost use Rattle.definition.specs.Uses.{param_of};
ghost use Rattle.set_part.specs.Part.{PartOk, marked_use};
ghost use Rattle.set_part.specs.Turned.{coded, param_here, holder, turned_row};

use crate::SetPart;
use definition::{Inst, Use, UseKind, Value};
use job::Job;

// What is kept of a turned use: its value, its number, and the block parameter, if there is one, that its list begins with at its instruction.
#[derive(Clone, Copy)]
pub struct TurnedRow {
    pub value: Value,
    pub number: usize,
    pub param: Option<u32>,
}

// Marks use number n as turned.
// Of the work space the place of the marks alone is used here and below, so it goes by itself.
pub fn mark(work: &mut [u8], marks: usize, n: usize)
    requires { marks + n < word_count work.old }
    ensures { words_of work.new ≡ set (words_of work.old) (marks + n) 1 }
{
    words::put_word(work, marks + n, 1);
}

// Use number n of the job: a conflict if it is marked.
#[tactic(auto, unfolding(crate::specs::Part::marked_use))]
pub fn marked_use(job: &Job, work: &[u8], marks: usize, n: usize) -> Use
    requires { (n < job.now.lay.uses.n) × (marks + n < word_count work.now) }
    ensures { result ≡ marked_use (words_of work.now) marks (words_in job.now) job.now.lay n }
{
    let lay = &job.lay;
    let u = uses::use_at(job.bytes, lay.uses.at + n * 6);
    if words::word_at(work, marks + n) == 0 {
        return u;
    }
    Use {
        kind: UseKind::ConstraintConflict,
        ..u
    }
}

// The block parameter of a BlockparamIn.
fn param_of(kind: UseKind) -> Option<u32>
    ensures { result ≡ coded (param_of kind) }
{
    match kind {
        UseKind::BlockparamIn { blockparam_idx } => Some(blockparam_idx),
        _ => None,
    }
}

// The block parameter of u, if it is a BlockparamIn at p.
#[tactic(auto, unfolding(crate::specs::Turned::param_here))]
fn param_here(u: Use, p: Inst) -> Option<u32>
    ensures { result ≡ coded (param_here p u) }
{
    if u.pos == p { param_of(u.kind) } else { None }
}

// The segment of a part that use number c belongs to.
fn holder_of(job: &Job, sp: SetPart, c: usize) -> usize
    requires { (sp.seg ≤ sp.last) × (sp.last < job.now.lay.segments.n) }
    ensures { (result ≡ holder (words_in job.now) job.now.lay sp c) × (sp.seg ≤ result) × (result ≤ sp.last) }
{
    let lay = &job.lay;
    for i in sp.seg..sp.last {
        if c < words::word_at(job.bytes, lay.segments.at + (i + 1) * 5 + 4) as usize {
            return i;
        }
    }
    sp.last
}

// What is kept of the use at place n of a part.
#[tactic(auto, unfolding(crate::specs::Turned::turned_in, crate::specs::Turned::turned_row))]
pub fn turned_at(job: &Job, work: &[u8], marks: usize, sp: SetPart, n: usize) -> TurnedRow
    requires { PartOk (words_in job.now) job.now.lay sp × (sp.first + n < sp.end) × (marks + job.now.lay.uses.n ≤ word_count work.now) }
    ensures { result ≡ turned_row (words_of work.now) marks (words_in job.now) job.now.lay sp n }
{
    let c = sp.first + n;
    let row = crate::part_seg(job, sp, holder_of(job, sp, c));
    let u = marked_use(job, work, marks, c);
    let head = marked_use(job, work, marks, row.first);
    TurnedRow {
        value: row.value,
        number: c,
        param: param_here(head, u.pos),
    }
}

// The reader of job sheets: a sheet of any length goes through in parts of any length. `open`, `feed` for each part, `finish`.

ghost use Rattle.std.specs.Prelude.{◌≡◌, ◌-◌, ◌*◌, ◌<◌};
ghost use Rattle.words.specs.Words.{word_count, words_of};
ghost use Rattle.sheet.specs.Fields.{fed};
ghost use Rattle.sheet.specs.Machine.{end_line, step_of, push_of, run_of, open_of, ended_of, answer_of};

use crate::fields::St;
use sheet_rules::forms::Kind;

// Why a sheet is not a job's: it is none (number 1), or has more records of a kind than its limit (number 2).
#[derive(Clone, Copy, PartialEq, Eq)]
pub enum SheetError {
    Malformed,
    TooMany,
}

#[tactic(auto, unfolding(crate::specs::Machine::end_line))]
fn end_line(s: St, out: &mut [u8]) -> Option<St>
    ensures { fed result (words_of out.new) ≡ end_line s (words_of out.old) }
{
    let t = crate::fields::end_field(s, out)?;
    crate::fields::close_record(t, out)
}

// A byte. It and `push` are inlined: `feed` calls them for each byte, and the state goes by value.
#[tactic(auto, unfolding(crate::specs::Machine::step_of))]
#[inline(always)]
fn step(s: St, b: u8, out: &mut [u8]) -> Option<St>
    ensures { fed result (words_of out.new) ≡ step_of s b (words_of out.old) }
{
    match b {
        b'\n' => end_line(s, out),
        b'\t' => crate::fields::end_field(s, out),
        _ => crate::fields::byte(s, b),
    }
}

#[tactic(auto, unfolding(crate::specs::Machine::push_of))]
#[inline(always)]
pub fn push(cur: Option<St>, b: u8, out: &mut [u8]) -> Option<St>
    ensures { fed result (words_of out.new) ≡ push_of (fed cur (words_of out.old)) b }
{
    step(cur?, b, out)
}

// The start of a sheet: a table of zeros.
#[tactic(auto, unfolding(crate::specs::Machine::open_of))]
pub fn open(out: &mut [u8]) -> Option<St>
    ensures { fed result (words_of out.new) ≡ open_of (word_count out.old) }
{
    crate::cells::clear(out);
    Some(crate::fields::begin(12, false))
}

// Goes on over one more part of the sheet.
#[tactic(auto, unfolding(crate::specs::Machine::run_of))]
pub fn feed(cur: Option<St>, part: &[u8], out: &mut [u8]) -> Option<St>
    ensures { fed result (words_of out.new) ≡ run_of (fed cur (words_of out.old)) part.now }
{
    let mut at = cur;
    for b in part {
        at = push(at, *b, out);
    }
    at
}

#[tactic(auto, unfolding(crate::specs::Machine::ended_of))]
fn ended(s: St) -> Result<(), SheetError>
    ensures { result ≡ ended_of s }
{
    if s.prev != Kind::End as u32 || s.n != 0 || s.len != 0 {
        return Err(SheetError::Malformed);
    }
    if s.over {
        return Err(SheetError::TooMany);
    }
    Ok(())
}

// The end of the sheet: whether it is a job's.
#[tactic(auto, unfolding(crate::specs::Machine::answer_of))]
pub fn finish(cur: Option<St>) -> Result<(), SheetError>
    ensures { result ≡ answer_of cur }
{
    ended(cur.ok_or(SheetError::Malformed)?)
}

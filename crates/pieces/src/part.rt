// The row of a piece of a working part, and whether one has a fixed hint.

ghost use Rattle.std.specs.Prelude.{◌≡◌, List, ℕ, ◌+◌, ◌-◌, ◌≤◌, ◌<◌};
ghost use Rattle.job.specs.JobWords.{words_in};
ghost use Rattle.definition.specs.Lines.{flags_number, hint_in};
ghost use Rattle.definition.specs.Build.{as_own};
ghost use Rattle.pieces.specs.Rows.{row_of};
ghost use Rattle.set_part.specs.Part as part;

use definition::{Origin, UseFlags};
use job::Job;
use set_part::{PartSeg, SetPart};
use virt_regs::PieceRow;

// "Flags: 1 live-in, 2 live-out, 4 fixed hint, 8 fixed def."
pub fn flags_number(f: UseFlags) -> u32
    ensures { result ≡ flags_number f }
{
    u32::from(f.livein)
        + 2 * u32::from(f.liveout)
        + 4 * u32::from(f.fixedhint)
        + 8 * u32::from(f.fixeddef)
}

// The row of an own piece whose first use is use u.
#[tactic(auto, unfolding(crate::specs::Rows::row_of))]
pub fn piece_row(s: PartSeg, u: usize) -> PieceRow
    requires { (s.first ≤ s.end) × (s.end - s.first < 4294967296) × (u < 4294967296) }
    ensures { result ≡ row_of s u }
{
    PieceRow {
        value: s.value,
        from: s.from,
        to: s.to,
        flags: flags_number(s.flags),
        origin: Origin::Own as u32,
        first: u as u32,
        uses: (s.end - s.first) as u32,
    }
}

// "fixed hint (1 if a piece has flag 4)": of a part.
pub fn hint_in_part(job: &Job, sp: SetPart) -> bool
    requires { part.PartOk (words_in job.now) job.now.lay sp }
    ensures { (K : List ℕ) (marks : ℕ) → result ≡ hint_in (as_own (part.part_segs K marks (words_in job.now) job.now.lay sp)) }
{
    (sp.seg..sp.last + 1).any(|i| set_part::part_seg(job, sp, i).flags.fixedhint)
}

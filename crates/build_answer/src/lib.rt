// How a build ends, and the tables in the slice that the caller lends for the result.
#![tactic(auto)]

ghost use Rattle.std.specs.Prelude.{◌≡◌, ◌*◌, ◌≤◌, ◌<◌};
ghost use Rattle.virt_regs.specs.Encoding.{tables_end};
ghost use Rattle.build_answer.specs.Answered.{named_in, Cut};
ghost use Rattle.build_answer.specs.Sheets.{number_alone};

use virt_regs::{GROUP_ROW, OutLayout};

// Number 0 and how many registers and groups there are; or the refusal's number, and zeros. No Result, since C gets it.
#[repr(C)]
#[derive(Clone, Copy)]
pub struct BuildEnd {
    pub number: u32,
    pub registers: u32,
    pub groups: u32,
}

// A refusal, by its number alone.
pub fn refuse(number: u32) -> BuildEnd
    ensures { result ≡ number_alone number }
{
    BuildEnd {
        number,
        registers: 0,
        groups: 0,
    }
}

// Of the rows named, those for which there is room; and no more than a word counts.
fn rows_in(room: usize, named: u32) -> usize
    ensures { (result ≡ named_in room named) × (result ≤ room) × (result ≤ 4294967294) }
{
    (named as usize).min(4294967294).min(room)
}

// The tables in a slice of n words, with as many rows as are named and fit.
pub fn out_layout(n: usize, regs: u32, segs: u32, uses: u32, groups: u32) -> OutLayout
    ensures { Cut n regs segs uses groups result }
{
    let a = rows_in(n / 8, regs);
    let behind_regs = n - a * 8;
    let b = rows_in(behind_regs / 7, segs);
    let behind_segs = behind_regs - b * 7;
    let c = rows_in(behind_segs / 6, uses);
    let behind_uses = behind_segs - c * 6;
    let d = rows_in(behind_uses / GROUP_ROW, groups);
    OutLayout {
        regs: a,
        segs: b,
        uses: c,
        groups: d,
    }
}

// How many bytes the tables take.
pub fn tables_bytes(ol: OutLayout) -> usize
    requires { tables_end ol < 4611686018427387904 }
    ensures { result ≡ tables_end ol * 4 }
{
    (ol.group_base() + ol.groups * GROUP_ROW) * 4
}

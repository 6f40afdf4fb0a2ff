// The parts of the work slice, one after the other in words.

ghost use Rattle.std.specs.Prelude.{◌≡◌, ◌≤◌};
ghost use Rattle.job.specs.Regions.{max_work, work_layout_of, Regions, chains_in};

use crate::Layout;
use values::operands::Chains;

// Where the parts begin: the index of the operands (a head for each instruction, a next for each operand), a word for each operand (its group + 1, 0 for none),
// the table of block starts, a word for each use of the job (1 if it is turned), four words for each turned use.
#[derive(Clone, Copy)]
pub struct WorkLayout {
    pub heads: usize,
    pub nexts: usize,
    pub mapping: usize,
    pub starts: usize,
    pub marks: usize,
    pub turned: usize,
}

// The parts of a job within the limits, of `insts` instructions.
#[tactic(auto, unfolding(crate::specs::Regions::work_layout_of))]
pub fn work_layout(lay: &Layout, insts: usize) -> WorkLayout
    requires { (insts ≤ 4096) × (lay.now.operands.n ≤ 1024) × (lay.now.blocks.n ≤ 512) × (lay.now.uses.n ≤ 4096) }
    ensures { (result ≡ work_layout_of lay.now insts) × Regions max_work lay.now insts result }
{
    let operands = lay.operands.n;
    let blocks = lay.blocks.n;
    let uses = lay.uses.n;
    let mapping = insts + operands;
    let starts = mapping + operands;
    let marks = starts + blocks * 2 + 2;
    WorkLayout {
        heads: 0,
        nexts: insts,
        mapping,
        starts,
        marks,
        turned: marks + uses,
    }
}

// The index of the operands.
pub fn chains_in(lay: &Layout, wl: WorkLayout) -> Chains
    requires { wl.heads ≤ wl.nexts }
    ensures { result ≡ chains_in lay.now wl }
{
    let heads = wl.heads;
    let nexts = wl.nexts;
    Chains {
        at: lay.operands.at,
        count: lay.operands.n,
        heads,
        nexts,
        insts: nexts - heads,
    }
}

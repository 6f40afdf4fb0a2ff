// builder.rs: the row of a register whose pieces and uses stand in the result tables, and the laws of the four ways in which it is placed.

ghost use Rattle.std.specs.Prelude.{◌≡◌, ◌+◌, ◌*◌, ◌^◌, ◌≤◌, ◌<◌};
ghost use Rattle.words.specs.Parts.{splice};
ghost use Rattle.words.specs.Words.{word_count, words_of};
ghost use Rattle.virt_regs.specs.Encoding.{register_words};
ghost use Rattle.placing.specs.Ready.{row_of, one_more};

use definition::{RegClass, ValueSet};
use virt_regs::{Counts, RegisterRow};

// What stands in the tables for a register: so many pieces, so many uses in all, and whether one has a fixed hint.
#[derive(Clone, Copy)]
pub struct Rows {
    pub pieces: usize,
    pub uses: usize,
    pub hint: bool,
}

// The row of a register behind those held. Its rows stand behind the pieces and uses held.
// The weight is a word and no `WeightBits`, since the row takes any word.
pub fn add_register(
    out: &mut [u8],
    c: &Counts,
    set: ValueSet,
    class: RegClass,
    weight: u32,
    group: u32,
    index: u32,
    new: &Rows,
) -> Counts
    requires { (c.now.regs * 8 + 8 ≤ word_count out.old) × (c.now.segs + new.now.pieces < 2 ^ 32) × (c.now.uses + new.now.uses < 2 ^ 32) }
    ensures { (result ≡ one_more c.now new.now.pieces new.now.uses) × (words_of out.new ≡ splice (words_of out.old) (c.now.regs * 8) (register_words (row_of c.now set class weight group index new.now.pieces new.now.hint))) }
{
    let row = RegisterRow {
        set,
        class,
        weight,
        group,
        index,
        hint: u32::from(new.hint),
        first: c.segs as u32,
        count: new.pieces as u32,
    };
    vregs_write::put::put_register(out, c.regs, row);
    Counts {
        regs: c.regs + 1,
        segs: c.segs + new.pieces,
        uses: c.uses + new.uses,
        ..*c
    }
}

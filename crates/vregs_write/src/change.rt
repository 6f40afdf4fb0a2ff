// Changes of rows in the result tables: class and weight of the members of a group, the places of a group, a new group.

ghost use Rattle.std.specs.Prelude.{◌≡◌, ◌+◌, ◌*◌, ◌^◌, ◌≤◌, ◌<◌, set};
ghost use Rattle.words.specs.Words.{word_count, words_of};
ghost use Rattle.virt_regs.specs.Encoding.{group_base, tables_end};
ghost use Rattle.vregs_write.specs.ChangeFlat.{weighted, at_place, spread_in, Spreadable};

use definition::{MAX_GROUP, RegClass, VirtReg, VirtRegGroup};
use virt_regs::{GROUP_ROW, OutLayout, group_size, member_at};
use words::put_word;

// Class and weight of register v.
#[tactic(auto, unfolding(crate::specs::ChangeFlat::weighted))]
pub fn set_class_weight(out: &mut [u8], v: usize, class: RegClass, weight: u32)
    requires { v * 8 + 8 ≤ word_count out.old }
    ensures { words_of out.new ≡ weighted class.0 weight v (words_of out.old) }
{
    let at = v * 8;
    put_word(out, at + 1, class.0);
    put_word(out, at + 2, weight);
}

// The same for the register that a place's word names, if any.
// The word is as the lent table has it for C, so no Option: the register + 1, 0 for none.
pub fn set_at_place(out: &mut [u8], m: u32, class: RegClass, weight: u32)
    requires { m * 8 ≤ word_count out.old }
    ensures { words_of out.new ≡ at_place class.0 weight m (words_of out.old) }
{
    if m != 0 {
        set_class_weight(out, (m - 1) as usize, class, weight);
    }
}

// Class and weight of all members of group g.
pub fn spread(out: &mut [u8], ol: OutLayout, g: VirtRegGroup, class: RegClass, weight: u32)
    requires { (tables_end ol ≤ word_count out.old) × Spreadable ol g (words_of out.old) }
    ensures { words_of out.new ≡ spread_in ol class.0 weight g (words_of out.old) }
{
    for i in 0..group_size(out, ol, g) as usize {
        let m = member_at(out, ol, g, i);
        set_at_place(out, m, class, weight);
    }
}

// Register v at place i of group g.
pub fn set_member(out: &mut [u8], ol: OutLayout, g: VirtRegGroup, i: usize, v: VirtReg)
    requires { (tables_end ol ≤ word_count out.old) × (g.0 < ol.groups) × (i < MAX_GROUP) × (v.0 + 1 < 2 ^ 32) }
    ensures { words_of out.new ≡ set (words_of out.old) (group_base ol + (g.0 * GROUP_ROW + (i + 1))) (v.0 + 1) }
{
    let at = ol.group_base() + (g.0 as usize * GROUP_ROW + (i + 1));
    put_word(out, at, v.0 + 1);
}

// Group g, behind the groups held: `size` places, of which place i has register v.
pub fn add_group(out: &mut [u8], ol: OutLayout, g: VirtRegGroup, size: u32, i: usize, v: VirtReg)
    requires { (tables_end ol ≤ word_count out.old) × (g.0 < ol.groups) × (i < MAX_GROUP) × (v.0 + 1 < 2 ^ 32) }
    ensures { words_of out.new ≡ set (set (words_of out.old) (group_base ol + g.0 * GROUP_ROW) size) (group_base ol + (g.0 * GROUP_ROW + (i + 1))) (v.0 + 1) }
{
    put_word(out, ol.group_base() + g.0 as usize * GROUP_ROW, size);
    set_member(out, ol, g, i, v);
}

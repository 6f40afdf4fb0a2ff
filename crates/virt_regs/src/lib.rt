// virt_regs/mod.rs: the result tables in one lent slice. Registers (8 words), segments (7), uses (6) and groups (9) follow each other; an OutLayout has how many rows each can hold.
#![tactic(auto)]

ghost use Rattle.std.specs.Prelude.{◌≡◌, ◌+◌, ◌*◌, ◌^◌, ◌≤◌, ◌<◌, get_or};
ghost use Rattle.words.specs.Words.{word_count, words_of};
ghost use Rattle.definition.specs.Types.{cls};
ghost use Rattle.virt_regs.specs.Encoding.{seg_base, use_base, group_base, tables_end};
ghost use Rattle.virt_regs.specs.Reads.{piece_in, segments_in};

use definition::{LiveRangePoint, MAX_GROUP, RegClass, Value, ValueSet, VirtReg, VirtRegGroup};
use words::word_at;

// The words of a group's row: the number of its places, and a word for each.
pub const GROUP_ROW: usize = MAX_GROUP + 1;

// How many rows each table can hold.
// That the tables lie in the slice beside it is a clause and no ghost field: the slice is lent `&mut`, and with a
// struct of both each function that writes a row would promise that the layout stays. Nor is `tables_end` below 2^64
// a ghost field: `has_room` asks nothing of a layout. A register, a group or a place is a number of the call, so that
// it is in the tables is a clause too.
#[derive(Clone, Copy)]
pub struct OutLayout {
    pub regs: usize,
    pub segs: usize,
    pub uses: usize,
    pub groups: usize,
}

impl OutLayout {
    // The word at which the pieces' rows begin, behind the registers'.
    pub fn seg_base(self) -> usize
        requires { tables_end self < 2 ^ 64 }
        ensures { result ≡ seg_base self }
    {
        self.regs * 8
    }

    // The word at which the uses' rows begin.
    pub fn use_base(self) -> usize
        requires { tables_end self < 2 ^ 64 }
        ensures { result ≡ use_base self }
    {
        self.seg_base() + self.segs * 7
    }

    // The word at which the groups' rows begin.
    pub fn group_base(self) -> usize
        requires { tables_end self < 2 ^ 64 }
        ensures { result ≡ group_base self }
    {
        self.use_base() + self.uses * 6
    }
}

// How many rows of each table are in use.
#[derive(Clone, Copy)]
pub struct Counts {
    pub regs: usize,
    pub segs: usize,
    pub uses: usize,
    pub groups: usize,
}

// A register's row: group is the group's number + 1 or 0, hint 0 or 1.
// They are words, and no Option and no bool: C reads the row, and a lent table may hold any word there.
#[derive(Clone, Copy)]
pub struct RegisterRow {
    pub set: ValueSet,
    pub class: RegClass,
    pub weight: u32,
    pub group: u32,
    pub index: u32,
    pub hint: u32,
    pub first: u32,
    pub count: u32,
}

// A piece's row: origin is the number of an Origin, first its first use, uses how many.
// The origin is no Origin: a lent table may hold any word there, and `piece_at` gives the word that it holds.
#[derive(Clone, Copy)]
pub struct PieceRow {
    pub value: Value,
    pub from: LiveRangePoint,
    pub to: LiveRangePoint,
    pub flags: u32,
    pub origin: u32,
    pub first: u32,
    pub uses: u32,
}

// Where a register's pieces stand.
#[derive(Clone, Copy)]
pub struct PieceSpan {
    pub first: usize,
    pub count: usize,
}

// Word k of register v's row.
fn register_word(out: &[u8], v: VirtReg, k: usize) -> u32
    requires { (v.0 * 8 + 8 ≤ word_count out.now) × (k < 8) }
    ensures { result ≡ get_or (words_of out.now) (v.0 * 8 + k) 0 }
{
    word_at(out, v.0 as usize * 8 + k)
}

// The class of register v.
pub fn class_of(out: &[u8], v: VirtReg) -> RegClass
    requires { v.0 * 8 + 8 ≤ word_count out.now }
    ensures { result ≡ cls (get_or (words_of out.now) (v.0 * 8 + 1) 0) }
{
    RegClass(register_word(out, v, 1))
}

// The bits of its weight.
pub fn weight_of(out: &[u8], v: VirtReg) -> u32
    requires { v.0 * 8 + 8 ≤ word_count out.now }
    ensures { result ≡ get_or (words_of out.now) (v.0 * 8 + 2) 0 }
{
    register_word(out, v, 2)
}

// Its group + 1, 0 where it has none: the word as the lent table has it for C, so no Option.
pub fn group_of(out: &[u8], v: VirtReg) -> u32
    requires { v.0 * 8 + 8 ≤ word_count out.now }
    ensures { result ≡ get_or (words_of out.now) (v.0 * 8 + 3) 0 }
{
    register_word(out, v, 3)
}

// Its pieces.
pub fn pieces_of(out: &[u8], v: VirtReg) -> PieceSpan
    requires { v.0 * 8 + 8 ≤ word_count out.now }
    ensures { (result.first ≡ get_or (words_of out.now) (v.0 * 8 + 6) 0) × (result.count ≡ get_or (words_of out.now) (v.0 * 8 + 7) 0) }
{
    PieceSpan {
        first: register_word(out, v, 6) as usize,
        count: register_word(out, v, 7) as usize,
    }
}

// Word k of group g's row.
fn group_word(out: &[u8], ol: OutLayout, g: VirtRegGroup, k: usize) -> u32
    requires { (tables_end ol ≤ word_count out.now) × (g.0 < ol.groups) × (k < GROUP_ROW) }
    ensures { result ≡ get_or (words_of out.now) (group_base ol + (g.0 * GROUP_ROW + k)) 0 }
{
    word_at(out, ol.group_base() + (g.0 as usize * GROUP_ROW + k))
}

// The number of places of group g.
pub fn group_size(out: &[u8], ol: OutLayout, g: VirtRegGroup) -> u32
    requires { (tables_end ol ≤ word_count out.now) × (g.0 < ol.groups) }
    ensures { result ≡ get_or (words_of out.now) (group_base ol + g.0 * GROUP_ROW) 0 }
{
    group_word(out, ol, g, 0)
}

// The register at place i of group g, + 1; 0 where the place is empty: the word as the lent table has it for C, so no
// Option.
pub fn member_at(out: &[u8], ol: OutLayout, g: VirtRegGroup, i: usize) -> u32
    requires { (tables_end ol ≤ word_count out.now) × (g.0 < ol.groups) × (i < MAX_GROUP) }
    ensures { result ≡ get_or (words_of out.now) (group_base ol + (g.0 * GROUP_ROW + (i + 1))) 0 }
{
    group_word(out, ol, g, i + 1)
}

// Piece i.
#[tactic(auto, unfolding(crate::specs::Reads::piece_in))]
pub fn piece_at(out: &[u8], ol: OutLayout, i: usize) -> PieceRow
    requires { (tables_end ol ≤ word_count out.now) × (i < ol.segs) }
    ensures { result ≡ piece_in (words_of out.now) (seg_base ol + i * 7) }
{
    let at = ol.seg_base() + i * 7;
    PieceRow {
        value: Value(word_at(out, at)),
        from: LiveRangePoint(word_at(out, at + 1)),
        to: LiveRangePoint(word_at(out, at + 2)),
        flags: word_at(out, at + 3),
        origin: word_at(out, at + 4),
        first: word_at(out, at + 5),
        uses: word_at(out, at + 6),
    }
}

// The rows of register v's pieces, as that part of the slice.
pub fn segments(out: &[u8], ol: OutLayout, v: VirtReg) -> &[u8]
    requires room { (tables_end ol ≤ word_count out.now) × (v.0 < ol.regs) }
    requires pieces_room { get_or (words_of out.now) (v.0 * 8 + 6) 0 + get_or (words_of out.now) (v.0 * 8 + 7) 0 ≤ ol.segs }
    ensures { words_of result.now ≡ segments_in ol (words_of out.now) v }
{
    let s = pieces_of(out, v);
    let from = ol.seg_base() + s.first * 7;
    let to = from + s.count * 7;
    &out[from * 4..to * 4]
}

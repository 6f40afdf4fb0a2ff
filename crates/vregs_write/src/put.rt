// Rows put into the result tables: a register's, a piece's, a use's; and whether the tables have room.

ghost use Rattle.std.specs.Prelude.{◌≡◌, List, ◌+◌, ◌*◌, ◌≤◌, ◌<◌, leb, length};
ghost use Rattle.words.specs.Parts.{splice};
ghost use Rattle.words.specs.Words.{word_count, words_of};
ghost use Rattle.definition.specs.Types.{Piece, State};
ghost use Rattle.definition.specs.Place.{has_room, uses_of_pieces};
ghost use Rattle.virt_regs.specs.Encoding.{seg_base, use_base, tables_end, room_of, register_words, piece_words, use_words, counts_of};

use definition::{Use, UseKind};
use virt_regs::{Counts, OutLayout, PieceRow, RegisterRow};
use words::put_row;

// Register v's row.
pub fn put_register(out: &mut [u8], v: usize, row: RegisterRow)
    requires { v * 8 + 8 ≤ word_count out.old }
    ensures { words_of out.new ≡ splice (words_of out.old) (v * 8) (register_words row) }
{
    let words = [
        row.set.0,
        row.class.0,
        row.weight,
        row.group,
        row.index,
        row.hint,
        row.first,
        row.count,
    ];
    put_row(out, v * 8, words);
}

// Piece i's row.
pub fn put_piece(out: &mut [u8], ol: OutLayout, i: usize, row: PieceRow)
    requires { (tables_end ol ≤ word_count out.old) × (i < ol.segs) }
    ensures { words_of out.new ≡ splice (words_of out.old) (seg_base ol + i * 7) (piece_words row) }
{
    let words = [
        row.value.0,
        row.from.0,
        row.to.0,
        row.flags,
        row.origin,
        row.first,
        row.uses,
    ];
    put_row(out, ol.seg_base() + i * 7, words);
}

// The kind, the instruction and the kind's fields in UseKind's order, zeros behind them.
// The kind is written as its number, since C reads these rows.
pub fn use_row(u: Use) -> [u32; 6]
    ensures { result ≡ use_words u }
{
    let pos = u.pos.0;
    match u.kind {
        UseKind::FixedDef { reg } => [0, pos, reg.0, 0, 0, 0],
        UseKind::FixedUse { reg } => [1, pos, reg.0, 0, 0, 0],
        UseKind::TiedUse {
            use_slot,
            def_slot,
            class,
            group_index,
        } => [
            2,
            pos,
            u32::from(use_slot),
            u32::from(def_slot),
            class.0,
            u32::from(group_index),
        ],
        UseKind::ConstraintConflict => [3, pos, 0, 0, 0, 0],
        UseKind::ClassUse { slot, class } => [4, pos, u32::from(slot), class.0, 0, 0],
        UseKind::ClassDef { slot, class } => [5, pos, u32::from(slot), class.0, 0, 0],
        UseKind::GroupClassUse {
            slot,
            class,
            group_index,
        } => [6, pos, u32::from(slot), class.0, u32::from(group_index), 0],
        UseKind::GroupClassDef {
            slot,
            class,
            group_index,
        } => [7, pos, u32::from(slot), class.0, u32::from(group_index), 0],
        UseKind::BlockparamIn { blockparam_idx } => [8, pos, blockparam_idx, 0, 0, 0],
        UseKind::BlockparamOut => [9, pos, 0, 0, 0, 0],
    }
}

// Use i's row.
pub fn put_use(out: &mut [u8], ol: OutLayout, i: usize, u: Use)
    requires { (tables_end ol ≤ word_count out.old) × (i < ol.uses) }
    ensures { words_of out.new ≡ splice (words_of out.old) (use_base ol + i * 6) (use_words u) }
{
    put_row(out, ol.use_base() + i * 6, use_row(u));
}

// Whether a table with `used` of `cap` rows in use can take `more`.
fn fits(cap: usize, used: usize, more: usize) -> bool
    ensures { result ≡ leb (used + more) cap }
{
    more <= cap && used <= cap - more
}

// Whether the tables can take r registers and g groups more, and np pieces with nu uses in all.
#[tactic(auto, unfolding(definition::specs::Place::has_room))]
pub fn has_room(ol: OutLayout, c: Counts, r: usize, g: usize, np: usize, nu: usize) -> bool
    ensures { (st : State) (ps : List Piece) → c ≡ counts_of st → np ≡ length ps → nu ≡ uses_of_pieces ps → result ≡ has_room (room_of ol) st r g ps }
{
    fits(ol.regs, c.regs, r)
        && fits(ol.segs, c.segs, np)
        && fits(ol.uses, c.uses, nu)
        && fits(ol.groups, c.groups, g)
}
